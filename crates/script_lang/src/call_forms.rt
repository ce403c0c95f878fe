ghost use Rattle.std.specs.Prelude.{◌≡◌, IfOk, map};
ghost use Rattle.script_lang.specs.CallForms.{call_keyword, call_kinds, begin_kinds, call_command, begin_command, call_form_named};

use crate::commands::Command;
use std::alloc::{AllocError, Global};
use word_kinds::{Kind, address_at, bytes_at, name_at, number_at};

/// The call that a command makes or begins.
#[derive(Clone, Copy, Drop)]
pub(crate) enum CallForm {
    Send,
    Raw,
    Take,
    Give,
    Bind,
    Unbind,
}

/// The calls.
pub(crate) const CALL_FORMS: [CallForm; 6] = [
    CallForm::Send,
    CallForm::Take,
    CallForm::Give,
    CallForm::Raw,
    CallForm::Bind,
    CallForm::Unbind,
];

/// The word by which a call is known.
pub(crate) fn call_keyword(form: CallForm) -> &'static str
    ensures { result.now ≡ call_keyword form }
{
    match form {
        CallForm::Send => "send",
        CallForm::Raw => "raw",
        CallForm::Take => "take",
        CallForm::Give => "give",
        CallForm::Bind => "bind",
        CallForm::Unbind => "unbind",
    }
}

/// The call that is known by this word.
pub(crate) fn call_form_named(word: &[u8]) -> Option<CallForm>
    ensures { result ≡ call_form_named word.now }
{
    CALL_FORMS
        .iter()
        .copied()
        .find(|form| word == call_keyword(*form).as_bytes())
}

/// The kinds of the words of a whole call.
pub(crate) fn call_kinds(form: CallForm) -> &'static [Kind]
    ensures { result.now ≡ call_kinds form }
{
    match form {
        CallForm::Send => &[
            Kind::Keyword,
            Kind::Name,
            Kind::Caller,
            Kind::Number,
            Kind::Number,
            Kind::Payload,
        ],
        CallForm::Raw => &[Kind::Keyword, Kind::Name, Kind::Caller, Kind::Payload],
        CallForm::Take => &[Kind::Keyword, Kind::Name, Kind::Caller],
        CallForm::Bind => &[Kind::Keyword, Kind::Name, Kind::Caller, Kind::Address],
        CallForm::Give | CallForm::Unbind => {
            &[Kind::Keyword, Kind::Name, Kind::Caller, Kind::Number]
        }
    }
}

/// The kinds of the words of `begin` with this call.
pub(crate) fn begin_kinds(form: CallForm) -> &'static [Kind]
    ensures { result.now ≡ begin_kinds form }
{
    match form {
        CallForm::Send => &[
            Kind::Keyword,
            Kind::Name,
            Kind::Caller,
            Kind::Keyword,
            Kind::Number,
            Kind::Number,
            Kind::Payload,
        ],
        CallForm::Raw => &[
            Kind::Keyword,
            Kind::Name,
            Kind::Caller,
            Kind::Keyword,
            Kind::Payload,
        ],
        CallForm::Take => &[Kind::Keyword, Kind::Name, Kind::Caller, Kind::Keyword],
        CallForm::Bind => &[
            Kind::Keyword,
            Kind::Name,
            Kind::Caller,
            Kind::Keyword,
            Kind::Address,
        ],
        CallForm::Give | CallForm::Unbind => &[
            Kind::Keyword,
            Kind::Name,
            Kind::Caller,
            Kind::Keyword,
            Kind::Number,
        ],
    }
}

/// The command of this whole call that the words say.
pub(crate) fn call_command(
    alloc: Global,
    form: CallForm,
    words: &[&[u8]],
) -> Result<Command, AllocError>
    ensures { IfOk result (λ command. command ≡ call_command form (map (λ word. word.now) words.now)) }
{
    let name = name_at(words, 1);
    let caller = number_at(words, 2);
    match form {
        CallForm::Send => {
            let source = number_at(words, 3);
            let destination = number_at(words, 4);
            let payload = bytes_at(alloc, words, 5)?;
            Ok(Command::Send {
                name,
                caller,
                source,
                destination,
                payload,
            })
        }
        CallForm::Raw => {
            let message = bytes_at(alloc, words, 3)?;
            Ok(Command::Raw {
                name,
                caller,
                message,
            })
        }
        CallForm::Take => Ok(Command::Take { name, caller }),
        CallForm::Give => Ok(Command::Give {
            name,
            caller,
            number: number_at(words, 3),
        }),
        CallForm::Bind => Ok(Command::Bind {
            name,
            caller,
            address: address_at(words, 3),
        }),
        CallForm::Unbind => Ok(Command::Unbind {
            name,
            caller,
            address: number_at(words, 3),
        }),
    }
}

/// The command that begins this call, as the words say.
pub(crate) fn begin_command(
    alloc: Global,
    form: CallForm,
    words: &[&[u8]],
) -> Result<Command, AllocError>
    ensures { IfOk result (λ command. command ≡ begin_command form (map (λ word. word.now) words.now)) }
{
    let name = name_at(words, 1);
    let caller = number_at(words, 2);
    match form {
        CallForm::Send => {
            let source = number_at(words, 4);
            let destination = number_at(words, 5);
            let payload = bytes_at(alloc, words, 6)?;
            Ok(Command::BeginSend {
                name,
                caller,
                source,
                destination,
                payload,
            })
        }
        CallForm::Raw => {
            let message = bytes_at(alloc, words, 4)?;
            Ok(Command::BeginRaw {
                name,
                caller,
                message,
            })
        }
        CallForm::Take => Ok(Command::BeginTake { name, caller }),
        CallForm::Give => Ok(Command::BeginGive {
            name,
            caller,
            number: number_at(words, 4),
        }),
        CallForm::Bind => Ok(Command::BeginBind {
            name,
            caller,
            address: address_at(words, 4),
        }),
        CallForm::Unbind => Ok(Command::BeginUnbind {
            name,
            caller,
            address: number_at(words, 4),
        }),
    }
}
