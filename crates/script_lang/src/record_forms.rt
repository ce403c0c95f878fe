ghost use Rattle.std.specs.Prelude.{◌≡◌, map};
ghost use Rattle.script_lang.specs.RecordForms.{record_keyword, record_kinds, record_line};

use crate::recipes::RecipeLine;
use word_kinds::{Kind, address_at, destination_at, number_at};

/// The form of a recipe line that says a record of a worker's code.
#[derive(Clone, Copy, Drop)]
pub(crate) enum RecordForm {
    Halt,
    Announce,
    Bind,
    Send,
    Raw,
    Take,
    Log,
    Crash,
    Loop,
}

/// The first word of a record's line.
pub(crate) fn record_keyword(form: RecordForm) -> &'static str
    ensures { result.now ≡ record_keyword form }
{
    match form {
        RecordForm::Halt => "halt",
        RecordForm::Announce => "announce",
        RecordForm::Bind => "bind",
        RecordForm::Send => "send",
        RecordForm::Raw => "raw",
        RecordForm::Take => "take",
        RecordForm::Log => "log",
        RecordForm::Crash => "crash",
        RecordForm::Loop => "loop",
    }
}

/// The kinds of the words of a record's line.
pub(crate) fn record_kinds(form: RecordForm) -> &'static [Kind]
    ensures { result.now ≡ record_kinds form }
{
    match form {
        RecordForm::Halt | RecordForm::Take => &[Kind::Keyword],
        RecordForm::Announce => &[Kind::Keyword, Kind::Number, Kind::Number, Kind::Number],
        RecordForm::Bind => &[Kind::Keyword, Kind::Address],
        RecordForm::Send => &[
            Kind::Keyword,
            Kind::Number,
            Kind::Destination,
            Kind::Number,
            Kind::RecordLength,
        ],
        RecordForm::Raw => &[Kind::Keyword, Kind::Number, Kind::RecordLength],
        RecordForm::Log => &[
            Kind::Keyword,
            Kind::Number,
            Kind::Number,
            Kind::RecordLength,
        ],
        RecordForm::Crash => &[Kind::Keyword, Kind::Number],
        RecordForm::Loop => &[Kind::Keyword, Kind::Number, Kind::Number],
    }
}

/// The record's line of this form that the words say.
pub(crate) fn record_line(form: RecordForm, words: &[&[u8]]) -> RecipeLine
    ensures { result ≡ record_line form (map (λ word. word.now) words.now) }
{
    match form {
        RecordForm::Halt => RecipeLine::Halt,
        RecordForm::Announce => {
            let address = number_at(words, 1);
            let flags = number_at(words, 2);
            RecipeLine::Announce(address, flags, number_at(words, 3))
        }
        RecordForm::Bind => RecipeLine::Bind(address_at(words, 1)),
        RecordForm::Send => {
            let source = number_at(words, 1);
            let destination = destination_at(words, 2);
            let da = number_at(words, 3);
            RecipeLine::Send(source, destination, da, number_at(words, 4))
        }
        RecordForm::Raw => RecipeLine::Raw(number_at(words, 1), number_at(words, 2)),
        RecordForm::Take => RecipeLine::Take,
        RecordForm::Log => {
            let to = number_at(words, 1);
            let from = number_at(words, 2);
            RecipeLine::Log(to, from, number_at(words, 3))
        }
        RecordForm::Crash => RecipeLine::Crash(number_at(words, 1)),
        RecordForm::Loop => RecipeLine::Loop(number_at(words, 1), number_at(words, 2)),
    }
}
