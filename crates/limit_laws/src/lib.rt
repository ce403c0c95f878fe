// The limits and fixed numbers of the program, each with its value: definitions cite the constants of the code, and this says what those are.
// And when a recovery finds other rings, which is fault 42.
#![tactic(auto)]

ghost use Rattle.std.specs.Prelude.{◌≡◌, ◌↔◌, ◌≤◌, ℕ, List, Option, None, length, true};
ghost use Rattle.rp_base.specs.declared.limits.TheConstants.{BOOK_MOST, CALLERS_MOST, CAPACITY_MOST, CHANNELS_MOST, ENDPOINTS_MOST, IMAGE_MOST, MESSAGE_MOST, NAME_MOST, OBJECTS_MOST, PAYLOAD_MOST, RING_MOST, SCRIPT_LINES_MOST, SCRIPT_MOST, STANDARD_MEMORY, STEPS_MOST};
ghost use Rattle.host_driver.specs.declared.drivers.TheConstants.{DRIVERS_MOST};
ghost use Rattle.image_maker.specs.declared.demo.TheConstants.{SESSIONS_MOST};
ghost use Rattle.memory_pool.specs.declared.TheConstants.{MEMORY_MOST, REGIONS_MOST};
ghost use Rattle.resource_table.specs.declared.TheConstants.{ENTRIES_MOST};
ghost use Rattle.endpoint_map.specs.declared.endpoints.TheConstants.{ANY_ADDRESS, FIRST_DYNAMIC};
ghost use Rattle.channel_bus.specs.declared.sides.TheConstants.{NAME_SERVICE};
ghost use Rattle.lane_model.specs.declared.TheConstants.{MANAGER};
ghost use Rattle.journal_check.specs.declared.limits.TheConstants.{TRANSCRIPT_MOST};
ghost use Rattle.core_actors.specs.declared.actors.TheConstants.{HOST_CALLER, WORKER_CALLER};
ghost use Rattle.crash_recover.specs.declared.core_acts.TheConstants.{OWN_CALLERS};
ghost use Rattle.crash_recover.specs.declared.core_faults.TheConstants.{CALLER_OUT, RINGS_CHANGED};
ghost use Rattle.command_run.specs.declared.core_drives.TheConstants.{STRETCH};
ghost use Rattle.command_run.specs.declared.dumps.TheConstants.{DUMPS_MOST};
ghost use Rattle.run_log.specs.declared.logs.TheConstants.{PIECE};
ghost use Rattle.fw_load.specs.declared.rings.RingPair.{RingPair};
ghost use Rattle.crash_recover.specs.CoreRecoveries.{rings_fault, same_rings};
ghost use Rattle.crash_recover.specs.Cores.{CoreState, LoadState, loaded_rings};
ghost use Rattle.lane_model.specs.Links.{LinkState};
ghost use Rattle.channel_bus.specs.Sides.{EndState};
ghost use Rattle.link_bench.specs.declared.acts.ActAnswer.{ActAnswer};
ghost use Rattle.link_commands.specs.Effects.{answer_events};
ghost use Rattle.storm_run.specs.declared.plans.TheConstants.{COUNT_MOST, END_CALLERS_MOST};
ghost use Rattle.chart.specs.declared.limits.TheConstants.{LIFELINES_MOST, LINES_MOST};
ghost use Rattle.c_forms.specs.declared.TheConstants.{DONE, NOTHING, NO_MEMORY, WRONG_FIX, WRONG_LENGTH};

/// The limits of links and messages: bytes of a message and of its payload, entries of a ring, buffers of a lane, messages of a book,
/// callers, and the manager's number.
pub fn link_limits()
    ensures message { MESSAGE_MOST ≡ 512 }
    ensures payload { PAYLOAD_MOST ≡ 496 }
    ensures ring { RING_MOST ≡ 32768 }
    ensures capacity { CAPACITY_MOST ≡ 256 }
    ensures book { BOOK_MOST ≡ 262144 }
    ensures callers { CALLERS_MOST ≡ 64 }
    ensures manager { MANAGER ≡ 64 }
{}

/// The limits of the ends of a link: endpoints and channels, the address of the name service, the address that asks for any, and the first
/// that is given then.
pub fn end_limits()
    ensures endpoints { ENDPOINTS_MOST ≡ 256 }
    ensures channels { CHANNELS_MOST ≡ 64 }
    ensures name_service { NAME_SERVICE ≡ 53 }
    ensures any_address { ANY_ADDRESS ≡ 0xffffffff }
    ensures first_dynamic { FIRST_DYNAMIC ≡ 1024 }
{}

/// The limits of cores: bytes of an image, entries of a resource table, regions, bytes of memory, bytes of the standard memory, drivers; and
/// the faults of a recovery with other rings, and of a caller that is out; and the callers of a core's link that are its own: how many, that of its
/// drivers and that of its worker.
pub fn core_limits()
    ensures image { IMAGE_MOST ≡ 4194304 }
    ensures entries { ENTRIES_MOST ≡ 256 }
    ensures regions { REGIONS_MOST ≡ 16 }
    ensures memory { MEMORY_MOST ≡ 16777216 }
    ensures standard_memory { STANDARD_MEMORY ≡ 65536 }
    ensures drivers { DRIVERS_MOST ≡ 16 }
    ensures rings_changed { RINGS_CHANGED ≡ 42 }
    ensures caller_out { CALLER_OUT ≡ 54 }
    ensures own_callers { OWN_CALLERS ≡ 2 }
    ensures host_caller { HOST_CALLER ≡ 0 }
    ensures worker_caller { WORKER_CALLER ≡ 1 }
{}

/// Rings are the same where they are equal in each field. So a recovery finds no fault in the rings of an image exactly where they are
/// those of the load before, or neither has any.
pub fn changed_rings()
    ensures same { (one other : Option RingPair) → same_rings one other ≡ true ↔ one ≡ other }
    ensures fault { (core : CoreState) (given : LoadState) → rings_fault core given ≡ None ↔ loaded_rings core.loaded ≡ given.rings }
{}

/// The limits of scripts: bytes, lines, links and cores together, steps of a run, bytes of a name, dumps, sessions of a demo; the bytes of a
/// transcript that is audited; the bytes of a transcript from which on they are handed to the sink, and the steps of a drive between two looks at that;
/// and the callers on an end of a storm and the messages of each.
pub fn script_limits()
    ensures bytes { SCRIPT_MOST ≡ 1048576 }
    ensures lines { SCRIPT_LINES_MOST ≡ 10000 }
    ensures objects { OBJECTS_MOST ≡ 8 }
    ensures steps { STEPS_MOST ≡ 4000000 }
    ensures name { NAME_MOST ≡ 31 }
    ensures dumps { DUMPS_MOST ≡ 64 }
    ensures sessions { SESSIONS_MOST ≡ 500 }
    ensures transcript { TRANSCRIPT_MOST ≡ 16777216 }
    ensures piece { PIECE ≡ 16384 }
    ensures stretch { STRETCH ≡ 1024 }
    ensures end_callers { END_CALLERS_MOST ≡ 31 }
    ensures count { COUNT_MOST ≡ 8192 }
{}

/// The lines of an act for callers on a link: whatever came of it, two at most tell it, of a pump too, however many turns it had.
pub fn act_lines()
    ensures { (name : List ℕ) (link : LinkState EndState) (answer : ActAnswer) → length (answer_events name link answer) ≤ 2 }
{}

/// The limits of a chart: lines of a transcript and lifelines; and the statuses of the library for C that are no fault's number, and what
/// stands for no number there.
pub fn outside_limits()
    ensures lines { LINES_MOST ≡ 100000 }
    ensures lifelines { LIFELINES_MOST ≡ 1032 }
    ensures done { DONE ≡ 0 }
    ensures no_memory { NO_MEMORY ≡ 100 }
    ensures wrong_length { WRONG_LENGTH ≡ 101 }
    ensures wrong_fix { WRONG_FIX ≡ 102 }
    ensures nothing { NOTHING ≡ 0xffffffff }
{}
