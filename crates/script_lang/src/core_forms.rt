ghost use Rattle.std.specs.Prelude.{◌≡◌, map};
ghost use Rattle.script_lang.specs.CoreForms.{region_set_at, core_keyword, core_kinds, core_command};

use crate::commands::{Command, RegionSet};
use word_kinds::{
    Kind, crash_kind_at, driver_at, name_at, number_at, region_kind_at, switch_at, word_at,
};

/// The form of a command of a core.
#[derive(Clone, Copy, Drop)]
pub(crate) enum CoreForm {
    Core,
    Region,
    Boot,
    Handover,
    Shutdown,
    Detach,
    State,
    Table,
    Trace,
    Mem,
    Crash,
    Recover,
    Recovery,
    Driver,
    Drive,
    Dump,
}

/// The first word of a command of a core.
pub(crate) fn core_keyword(form: CoreForm) -> &'static str
    ensures { result.now ≡ core_keyword form }
{
    match form {
        CoreForm::Core => "core",
        CoreForm::Region => "region",
        CoreForm::Boot => "boot",
        CoreForm::Handover => "handover",
        CoreForm::Shutdown => "shutdown",
        CoreForm::Detach => "detach",
        CoreForm::State => "state",
        CoreForm::Table => "table",
        CoreForm::Trace => "trace",
        CoreForm::Mem => "mem",
        CoreForm::Crash => "crash",
        CoreForm::Recover => "recover",
        CoreForm::Recovery => "recovery",
        CoreForm::Driver => "driver",
        CoreForm::Drive => "drive",
        CoreForm::Dump => "dump",
    }
}

/// The kinds of the words of a command of a core.
pub(crate) fn core_kinds(form: CoreForm) -> &'static [Kind]
    ensures { result.now ≡ core_kinds form }
{
    match form {
        CoreForm::Core => &[Kind::Keyword, Kind::Name, Kind::RegionSet, Kind::Book],
        CoreForm::Region => &[
            Kind::Keyword,
            Kind::Name,
            Kind::RegionKind,
            Kind::Number,
            Kind::Number,
            Kind::Number,
        ],
        CoreForm::Boot | CoreForm::Handover | CoreForm::Dump => &[
            Kind::Keyword,
            Kind::Name,
            Kind::Name,
        ],
        CoreForm::Shutdown
        | CoreForm::Detach
        | CoreForm::State
        | CoreForm::Table
        | CoreForm::Recover => { &[Kind::Keyword, Kind::Name] }
        CoreForm::Trace => &[Kind::Keyword, Kind::Name, Kind::Number],
        CoreForm::Mem => &[Kind::Keyword, Kind::Name, Kind::Number, Kind::Length],
        CoreForm::Crash => &[Kind::Keyword, Kind::Name, Kind::CrashKind],
        CoreForm::Recovery => &[Kind::Keyword, Kind::Name, Kind::Switch],
        CoreForm::Driver => &[Kind::Keyword, Kind::Name, Kind::Name, Kind::DriverKind],
        CoreForm::Drive => &[Kind::Keyword, Kind::Name, Kind::Count],
    }
}

/// The set of regions in a place, or none where the word there is none.
fn region_set_at(words: &[&[u8]], place: usize) -> RegionSet
    ensures { result ≡ region_set_at (map (λ word. word.now) words.now) place }
{
    if word_at(words, place) == b"std".as_slice() {
        RegionSet::Standard
    } else {
        RegionSet::Bare
    }
}

/// The command of this form that the words say.
pub(crate) fn core_command(form: CoreForm, words: &[&[u8]]) -> Command
    ensures { result ≡ core_command form (map (λ word. word.now) words.now) }
{
    let name = name_at(words, 1);
    match form {
        CoreForm::Core => Command::Core {
            name,
            regions: region_set_at(words, 2),
            book: number_at(words, 3),
        },
        CoreForm::Region => {
            let da = number_at(words, 3);
            let pa = number_at(words, 4);
            Command::Region {
                name,
                kind: region_kind_at(words, 2),
                da,
                pa,
                len: number_at(words, 5),
            }
        }
        CoreForm::Boot => Command::Boot {
            name,
            image: name_at(words, 2),
        },
        CoreForm::Handover => Command::Handover {
            name,
            image: name_at(words, 2),
        },
        CoreForm::Shutdown => Command::Shutdown { name },
        CoreForm::Detach => Command::Detach { name },
        CoreForm::State => Command::State { name },
        CoreForm::Table => Command::Table { name },
        CoreForm::Trace => Command::Trace {
            name,
            trace: number_at(words, 2),
        },
        CoreForm::Mem => Command::Mem {
            name,
            da: number_at(words, 2),
            len: number_at(words, 3),
        },
        CoreForm::Crash => Command::Crash {
            name,
            kind: crash_kind_at(words, 2),
        },
        CoreForm::Recover => Command::Recover { name },
        CoreForm::Recovery => Command::Recovery {
            name,
            switch: switch_at(words, 2),
        },
        CoreForm::Driver => Command::Driver {
            name,
            channel: name_at(words, 2),
            kind: driver_at(words, 3),
        },
        CoreForm::Drive => Command::Drive {
            name,
            count: number_at(words, 2),
        },
        CoreForm::Dump => Command::Dump {
            name,
            image: name_at(words, 2),
        },
    }
}
