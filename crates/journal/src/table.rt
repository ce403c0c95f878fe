ghost use Rattle.std.specs.Prelude.{◌≡◌, ◌%◌, ◌^◌, IfOk, find, map};
ghost use Rattle.word_kinds.specs.Readings.{number_read};
ghost use Rattle.word_kinds.specs.Lines.{word_of};
ghost use Rattle.word_kinds.specs.Rows.{kind_in, fit, filled, row_read, text_at};
ghost use Rattle.journal.specs.Lines.{words_of};
ghost use Rattle.journal.specs.Forms.{forms, kinds, event_in};

use crate::events::Event;
use crate::fields::Fields;
use crate::tables::TableLine;
use rp_base::{CrashKind, Era};
use std::alloc::{AllocError, Global};
use word_kinds::{
    Piece, Slot, bytes_at, channel_at, decimal_at, dotted_at, driver_at, end_at, endpoint_at, fit,
    hex_at, lane_at, name_at, offset_at, open_at, row_at, service_at, state_at, switch_at,
    trace_at,
};

/// The form of a line: its fixed words, and what is in the other places.
#[derive(Clone, Copy, Drop)]
pub(crate) enum Form {
    Unknown,
    ObjectsFull,
    Image,
    ImageExists,
    NoLink,
    Exists,
    Open,
    Closed,
    Already,
    StillOpen,
    StillHeld,
    IncarnationsSpent,
    Reclaimed,
    BusyTurn,
    Caller,
    CallersFull,
    NoCaller,
    LaneAcceptedHandedReturned,
    Pumped,
    Ring,
    Dump,
    StillTurn,
    ChannelWithout,
    Channel,
    Offline,
    NotOffline,
    Region,
    Driver,
    DriverTaken,
    DriversFull,
    Running,
    Users,
    Missing,
    TooLarge,
    Fault,
    FaultAt,
    CrashedMmufault,
    CrashedWatchdog,
    CrashedFatal,
    AlreadyCrashed,
    Recovery,
    State,
    WorkerFault,
    Idle,
    Paused,
    Stopped,
    NotRunning,
    NotLoaded,
    TableCarveout,
    TableDevmem,
    TableTrace,
    TableTraceUnavailable,
    TableSkipped,
    TableVdev,
    TableVring,
    Trace,
    NoTrace,
    Mem,
    Unmapped,
    NotCrashed,
    DumpTooLarge,
    DumpsFull,
    Detached,
    Attached,
    InCall,
    NoCall,
    NotHeld,
    TooLong,
    Begun,
    At,
    Sent,
    Gave,
    Bound,
    Unbound,
    Busy,
    Dead,
    NoBuffer,
    BookFull,
    Empty,
    AddressTaken,
    EndpointsFull,
    NotBound,
    TookFromTo,
    TookFromDropped,
    TookMalformed,
    TookNs,
    TookNsMalformed,
    WrongSide,
}

/// The table of the lines, an entry for each form: its event, and the words of its line in their
/// order, each a fixed word or a kind with the field that is there. What follows goes by it, as
/// rules over the entries. Lines that begin with `*` come first, and those with a number in the
/// second place last, since a name may be any other fixed word.
macro_rules! with_lines {
    ($rule:ident $($given:tt)*) => {
        $rule! { $($given)*
            Unknown: (Event::Unknown { name }) ["*" "unknown" (Name name)];
            ObjectsFull: (Event::ObjectsFull) ["*" "objects-full"];
            Image: (Event::Image { name, len }) ["*" "image" (Name name) (Number len)];
            ImageExists: (Event::ImageExists { name }) ["*" "image-exists" (Name name)];
            NoLink: (Event::NoLink { name }) [(Name name) "no-link"];
            Exists: (Event::Exists { name }) [(Name name) "exists"];
            Open: (Event::Open { name, inc }) [(Name name) "open" (Number inc)];
            Closed: (Event::Closed { name, inc }) [(Name name) "closed" (Number inc)];
            Already: (Event::Already { name, era: Era { inc, is_live } })
                [(Name name) "already" (Inc inc) (Open is_live)];
            StillOpen: (Event::StillOpen { name, inc }) [(Name name) "still-open" (Number inc)];
            StillHeld: (Event::StillHeld { name, caller, number })
                [(Name name) "still-held" (Number caller) (Number number)];
            IncarnationsSpent: (Event::IncarnationsSpent { name })
                [(Name name) "incarnations-spent"];
            Reclaimed: (Event::Reclaimed { name, caller })
                [(Name name) "reclaimed" (Number caller)];
            BusyTurn: (Event::BusyTurn { name, holder }) [(Name name) "busy" (Number holder)];
            Caller: (Event::Caller { name, caller, end })
                [(Name name) "caller" (Number caller) (Side end)];
            CallersFull: (Event::CallersFull { name }) [(Name name) "callers-full"];
            NoCaller: (Event::NoCaller { name, caller }) [(Name name) "no-caller" (Number caller)];
            LaneAcceptedHandedReturned: (Event::LaneAcceptedHandedReturned {
                name, lane, accepted, handed, returned
            })
                [(Name name) "lane" (Lane lane) "accepted" (Number accepted) "handed"
                (Number handed) "returned" (Number returned)];
            Pumped: (Event::Pumped { name, turns }) [(Name name) "pumped" (Number turns)];
            Ring: (Event::Ring { name, lane, len }) [(Name name) "ring" (Lane lane) (Number len)];
            Dump: (Event::Dump { name, offset, bytes })
                [(Name name) "dump" (Offset offset) (Row 16 bytes)];
            StillTurn: (Event::StillTurn { name, caller })
                [(Name name) "still-turn" (Number caller)];
            ChannelWithout: (Event::Channel { name, channel, address, endpoint: None })
                [(Name name) "channel" (Escaped channel) (Number address) "-"];
            Channel: (Event::Channel { name, channel, address, endpoint: Some(endpoint) })
                [(Name name) "channel" (Escaped channel) (Number address) (Bound endpoint)];
            Offline: (Event::Offline { name }) [(Name name) "offline"];
            NotOffline: (Event::NotOffline { name }) [(Name name) "not-offline"];
            Region: (Event::Region { name, region }) [(Name name) "region" (Number region)];
            Driver: (Event::Driver { name, channel, kind })
                [(Name name) "driver" (Name channel) (Driver kind)];
            DriverTaken: (Event::DriverTaken { name, channel })
                [(Name name) "driver-taken" (Name channel)];
            DriversFull: (Event::DriversFull { name }) [(Name name) "drivers-full"];
            Running: (Event::Running { name, inc }) [(Name name) "running" (Number inc)];
            Users: (Event::Users { name, users }) [(Name name) "users" (Number users)];
            Missing: (Event::Missing { name, image }) [(Name name) "missing" (Name image)];
            TooLarge: (Event::TooLarge { name, image }) [(Name name) "too-large" (Name image)];
            Fault: (Event::Fault { name, fault }) [(Name name) "fault" (Number fault)];
            FaultAt: (Event::FaultAt { name, fault, index })
                [(Name name) "fault" (Number fault) (Number index)];
            CrashedMmufault: (Event::Crashed { name, kind: CrashKind::Mmufault })
                [(Name name) "crashed" "mmufault"];
            CrashedWatchdog: (Event::Crashed { name, kind: CrashKind::Watchdog })
                [(Name name) "crashed" "watchdog"];
            CrashedFatal: (Event::Crashed { name, kind: CrashKind::Fatal })
                [(Name name) "crashed" "fatal" "error"];
            AlreadyCrashed: (Event::AlreadyCrashed { name }) [(Name name) "already"];
            Recovery: (Event::Recovery { name, switch }) [(Name name) "recovery" (Switch switch)];
            State: (Event::State { name, state, users, inc })
                [(Name name) "state" (State state) "users" (Number users) "incarnation"
                (Number inc)];
            WorkerFault: (Event::WorkerFault { name, fault })
                [(Name name) "worker" "fault" (Number fault)];
            Idle: (Event::Idle { name }) [(Name name) "idle"];
            Paused: (Event::Paused { name }) [(Name name) "paused"];
            Stopped: (Event::Stopped { name }) [(Name name) "stopped"];
            NotRunning: (Event::NotRunning { name }) [(Name name) "not-running"];
            NotLoaded: (Event::NotLoaded { name }) [(Name name) "not-loaded"];
            TableCarveout: (Event::Table {
                name, line: TableLine::Carveout(entry, da, pa, len, label)
            })
                [(Name name) "entry" (Number entry) "carveout" (Digits da) (Digits pa)
                (Digits len) (Escaped label)];
            TableDevmem: (Event::Table { name, line: TableLine::Devmem(entry, da, pa, len, label) })
                [(Name name) "entry" (Number entry) "devmem" (Digits da) (Digits pa) (Digits len)
                (Escaped label)];
            TableTrace: (Event::Table { name, line: TableLine::Trace(entry, da, len, label) })
                [(Name name) "entry" (Number entry) "trace" (Digits da) (Digits len)
                (Escaped label)];
            TableTraceUnavailable: (Event::Table {
                name, line: TableLine::TraceUnavailable(entry, da, len, label)
            })
                [(Name name) "entry" (Number entry) "trace" (Digits da) (Digits len)
                (Escaped label) "unavailable"];
            TableSkipped: (Event::Table { name, line: TableLine::Skipped(entry, kind) })
                [(Name name) "entry" (Number entry) "skipped" (Number kind)];
            TableVdev: (Event::Table { name, line: TableLine::Vdev(entry, id, features, status) })
                [(Name name) "entry" (Number entry) "vdev" (Number id) "features"
                (Number features) "status" (Number status)];
            TableVring: (Event::Table {
                name, line: TableLine::Vring(entry, ring, da, align, num, notify)
            })
                [(Name name) "vring" (Dotted entry ring) (Digits da) (Number align) (Number num)
                (Number notify)];
            Trace: (Event::Trace { name, trace, text })
                [(Name name) "trace" (Number trace) (Trace text)];
            NoTrace: (Event::NoTrace { name, trace }) [(Name name) "no-trace" (Number trace)];
            Mem: (Event::Mem { name, da, bytes }) [(Name name) "mem" (Digits da) (Row 256 bytes)];
            Unmapped: (Event::Unmapped { name, da, len })
                [(Name name) "unmapped" (Digits da) (Number len)];
            NotCrashed: (Event::NotCrashed { name }) [(Name name) "not-crashed"];
            DumpTooLarge: (Event::DumpTooLarge { name, len })
                [(Name name) "dump-too-large" (Number len)];
            DumpsFull: (Event::DumpsFull { name }) [(Name name) "dumps-full"];
            Detached: (Event::Detached { name }) [(Name name) "detached"];
            Attached: (Event::Attached { name, inc }) [(Name name) "attached" (Number inc)];
            InCall: (Event::InCall { name, caller }) [(Name name) (Number caller) "in-call"];
            NoCall: (Event::NoCall { name, caller }) [(Name name) (Number caller) "no-call"];
            NotHeld: (Event::NotHeld { name, caller, number })
                [(Name name) (Number caller) "not-held" (Number number)];
            TooLong: (Event::TooLong { name, caller, len })
                [(Name name) (Number caller) "too-long" (Number len)];
            Begun: (Event::Begun { name, caller }) [(Name name) (Number caller) "begun"];
            At: (Event::At { name, caller, step }) [(Name name) (Number caller) "at" (Number step)];
            Sent: (Event::Sent { name, caller, number })
                [(Name name) (Number caller) "sent" (Number number)];
            Gave: (Event::Gave { name, caller, number })
                [(Name name) (Number caller) "gave" (Number number)];
            Bound: (Event::Bound { name, caller, endpoint })
                [(Name name) (Number caller) "bound" (Bound endpoint)];
            Unbound: (Event::Unbound { name, caller, endpoint })
                [(Name name) (Number caller) "unbound" (Bound endpoint)];
            Busy: (Event::Busy { name, caller, holder })
                [(Name name) (Number caller) "busy" (Number holder)];
            Dead: (Event::Dead { name, caller, era: Era { inc, is_live } })
                [(Name name) (Number caller) "dead" (Inc inc) (Open is_live)];
            NoBuffer: (Event::NoBuffer { name, caller, accepted, returned })
                [(Name name) (Number caller) "no-buffer" (Number accepted) (Number returned)];
            BookFull: (Event::BookFull { name, caller, accepted })
                [(Name name) (Number caller) "book-full" (Number accepted)];
            Empty: (Event::Empty { name, caller, accepted })
                [(Name name) (Number caller) "empty" (Number accepted)];
            AddressTaken: (Event::AddressTaken { name, caller, address })
                [(Name name) (Number caller) "address-taken" (Number address)];
            EndpointsFull: (Event::EndpointsFull { name, caller })
                [(Name name) (Number caller) "endpoints-full"];
            NotBound: (Event::NotBound { name, caller, address })
                [(Name name) (Number caller) "not-bound" (Number address)];
            TookFromTo: (Event::TookFromTo { name, caller, number, source, endpoint, payload })
                [(Name name) (Number caller) "took" (Number number) "from" (Number source) "to"
                (Bound endpoint) (Bytes payload)];
            TookFromDropped: (Event::TookFromDropped {
                name, caller, number, source, destination, payload
            })
                [(Name name) (Number caller) "took" (Number number) "from" (Number source)
                "dropped" (Number destination) (Bytes payload)];
            TookMalformed: (Event::TookMalformed { name, caller, number })
                [(Name name) (Number caller) "took" (Number number) "malformed"];
            TookNs: (Event::TookNs { name, caller, number, kind, channel, address })
                [(Name name) (Number caller) "took" (Number number) "ns" (Service kind)
                (Escaped channel) (Number address)];
            TookNsMalformed: (Event::TookNsMalformed { name, caller, number })
                [(Name name) (Number caller) "took" (Number number) "ns" "malformed"];
            WrongSide: (Event::WrongSide { name, caller })
                [(Name name) (Number caller) "wrong-side"];
        }
    };
}

/// The forms of the entries.
macro_rules! all_forms {
    ($($form:ident: $event:tt [$($word:tt)+];)+) => { [$(Form::$form),+] };
}

/// What is in the place of a word of the table.
macro_rules! slot {
    ((Row $most:literal $field:ident)) => { Slot::Row($most) };
    ((Inc $field:ident)) => { Slot::Number };
    (($kind:ident $($field:ident)+)) => { Slot::$kind };
    ($text:literal) => { Slot::Text($text) };
}

/// The places of a form.
macro_rules! slots_by_form {
    (($form_now:ident) $($form:ident: $event:tt [$($word:tt)+];)+) => {
        match $form_now { $(Form::$form => &[$(slot!($word)),+],)+ }
    };
}

/// The fields of an event with the form of its line: each as the piece of its kind, and the fixed
/// words left out. The rule of the counts says how many there are.
macro_rules! fields {
    ($form:ident [] [zero $($more:ident)+]) => {
        Fields { form: Form::$form, values: [$(empty!($more)),+] }
    };
    ($form:ident [$($piece:tt)+] [$count:ident $($more:ident)*]) => {
        Fields::$count(Form::$form, $($piece)+)
    };
    ($form:ident [$($piece:tt)*] $counts:tt $text:literal $($word:tt)*) => {
        fields!($form [$($piece)*] $counts $($word)*)
    };
    ($form:ident [$($piece:tt)*] [$count:ident $($more:ident)*] ($($named:tt)+) $($word:tt)*) => {
        fields!($form [$($piece)* piece!($($named)+),] [$($more)*] $($word)*)
    };
}

/// What is in a place that no field needs.
macro_rules! empty {
    ($count:ident) => { Piece::Fixed("") };
}

/// A field as the piece of its kind.
macro_rules! piece {
    (Inc $field:ident) => { Piece::Short($field) };
    (Row $most:literal $field:ident) => { Piece::Row($most, $field) };
    ($kind:ident $($field:ident)+) => { Piece::$kind($($field),+) };
}

/// The fields of an event.
macro_rules! fields_by_event {
    (($event_now:ident) $($form:ident: ($($event:tt)+) [$($word:tt)+];)+) => {
        match $event_now {
            $($($event)+ => fields!($form [] [zero one two three four five six] $($word)+),)+
        }
    };
}

/// The field or the fields that a word has.
macro_rules! field {
    ((Row $most:literal $field:ident)) => { $field };
    ((Dotted $first:ident $second:ident)) => { ($first, $second) };
    (($kind:ident $field:ident)) => { $field };
}

/// The value that a word of the table has in a place.
macro_rules! value {
    ((Name $field:ident) $alloc:ident $($at:tt)+) => { name_at($($at)+) };
    ((Number $field:ident) $alloc:ident $($at:tt)+) => { decimal_at($($at)+) };
    ((Inc $field:ident) $alloc:ident $($at:tt)+) => { inc_at($($at)+) };
    ((Digits $field:ident) $alloc:ident $($at:tt)+) => { hex_at($($at)+) };
    ((Offset $field:ident) $alloc:ident $($at:tt)+) => { offset_at($($at)+) };
    ((Bytes $field:ident) $alloc:ident $($at:tt)+) => { bytes_at($alloc, $($at)+)? };
    ((Row $most:literal $field:ident) $alloc:ident $($at:tt)+) => { row_at($alloc, $($at)+)? };
    ((Escaped $field:ident) $alloc:ident $($at:tt)+) => { channel_at($($at)+) };
    ((Trace $field:ident) $alloc:ident $($at:tt)+) => { trace_at($alloc, $($at)+)? };
    ((Lane $field:ident) $alloc:ident $($at:tt)+) => { lane_at($($at)+) };
    ((Bound $field:ident) $alloc:ident $($at:tt)+) => { endpoint_at($($at)+) };
    ((Dotted $first:ident $second:ident) $alloc:ident $($at:tt)+) => { dotted_at($($at)+) };
    ((Side $field:ident) $alloc:ident $($at:tt)+) => { end_at($($at)+) };
    ((Open $field:ident) $alloc:ident $($at:tt)+) => { open_at($($at)+) };
    ((Service $field:ident) $alloc:ident $($at:tt)+) => { service_at($($at)+) };
    ((State $field:ident) $alloc:ident $($at:tt)+) => { state_at($($at)+) };
    ((Driver $field:ident) $alloc:ident $($at:tt)+) => { driver_at($($at)+) };
    ((Switch $field:ident) $alloc:ident $($at:tt)+) => { switch_at($($at)+) };
}

/// The event of some words: first each field is read from its place, and then the event is made.
macro_rules! event {
    ($words:ident $alloc:ident ($($event:tt)+) [$($read:tt)*] [$($place:literal)*]) => {{
        $($read)*
        Ok($($event)+)
    }};
    ($words:ident $alloc:ident $event:tt [$($read:tt)*] [$place:literal $($places:literal)*]
        $text:literal $($word:tt)*) => {
        event!($words $alloc $event [$($read)*] [$($places)*] $($word)*)
    };
    ($words:ident $alloc:ident $event:tt [$($read:tt)*] [$place:literal $($places:literal)*]
        $named:tt $($word:tt)*) => {
        event!(
            $words $alloc $event
            [$($read)* let field!($named) = value!($named $alloc $words, $place);]
            [$($places)*] $($word)*
        )
    };
}

/// The event of a form that some words say.
macro_rules! event_by_form {
    (($form_now:ident $words:ident $alloc:ident) $($form:ident: $event:tt [$($word:tt)+];)+) => {
        match $form_now {
            $(Form::$form => event!($words $alloc $event [] [0 1 2 3 4 5 6 7 8] $($word)+),)+
        }
    };
}

/// All forms, in the order of the table.
const FORMS: [Form; 88] = with_lines!(all_forms);

/// What is in the places of a line of this form.
pub(crate) fn slots(form: Form) -> &'static [Slot<'static>]
    ensures { map kind_in result.now ≡ kinds form }
{
    with_lines!(slots_by_form(form))
}

/// The first form that these words fit.
pub(crate) fn form_of(words: &[&[u8]]) -> Option<Form>
    ensures { result ≡ find (λ form. fit (kinds form) (map (λ word. word.now) words.now)) forms }
{
    FORMS.iter().copied().find(|form| fit(slots(*form), words))
}

/// The form of the line of an event, with the event's fields.
pub(crate) fn fields_of(event: &Event) -> Fields<'_>
    ensures { filled (kinds result.form) (map word_of result.values) ≡ words_of event.now }
{
    with_lines!(fields_by_event(event))
}

/// The event of this form that the words say.
pub(crate) fn event_in(alloc: Global, form: Form, words: &[&[u8]]) -> Result<Event, AllocError>
    ensures { IfOk result (λ event. event ≡ event_in form (row_read (kinds form) (map (λ word. word.now) words.now))) }
{
    with_lines!(event_by_form (form words alloc))
}

/// The incarnation whose number is in a place, modulo 2^32.
fn inc_at(words: &[&[u8]], place: usize) -> u32
    ensures { result ≡ number_read (text_at (map (λ word. word.now) words.now) place) % 2 ^ 32 }
{
    (decimal_at(words, place) % 4_294_967_296) as u32
}
