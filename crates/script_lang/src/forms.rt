ghost use Rattle.std.specs.Prelude.{◌≡◌, IfOk, map};
ghost use Rattle.script_lang.specs.Forms.{keyword, kinds, command_of, form_named};

use crate::call_forms::{
    CallForm, begin_command, begin_kinds, call_command, call_keyword, call_kinds,
};
use crate::commands::Command;
use crate::core_forms::{CoreForm, core_command, core_keyword, core_kinds};
use std::alloc::{AllocError, Global};
use word_kinds::{Kind, end_at, name_at, number_at, switch_at};

/// The form of a command: its keyword, and the kinds of its words.
#[derive(Clone, Copy, Drop)]
pub(crate) enum Form {
    /// A whole call.
    Call(CallForm),
    /// The begin of a call.
    Begin(CallForm),
    /// A command of a core.
    Core(CoreForm),
    Link,
    NsLink,
    Caller,
    Step,
    Finish,
    Pump,
    Books,
    Ring,
    Channels,
    Close,
    Reclaim,
    Reopen,
    Quiet,
}

/// The forms that are known by their first word.
pub(crate) const FORMS: [Form; 35] = [
    Form::Call(CallForm::Send),
    Form::Call(CallForm::Take),
    Form::Call(CallForm::Give),
    Form::Call(CallForm::Raw),
    Form::Call(CallForm::Bind),
    Form::Call(CallForm::Unbind),
    Form::Step,
    Form::Finish,
    Form::Link,
    Form::NsLink,
    Form::Caller,
    Form::Pump,
    Form::Books,
    Form::Ring,
    Form::Channels,
    Form::Close,
    Form::Reclaim,
    Form::Reopen,
    Form::Core(CoreForm::Core),
    Form::Core(CoreForm::Region),
    Form::Core(CoreForm::Boot),
    Form::Core(CoreForm::Handover),
    Form::Core(CoreForm::Shutdown),
    Form::Core(CoreForm::Detach),
    Form::Core(CoreForm::State),
    Form::Core(CoreForm::Table),
    Form::Core(CoreForm::Trace),
    Form::Core(CoreForm::Mem),
    Form::Core(CoreForm::Crash),
    Form::Core(CoreForm::Recover),
    Form::Core(CoreForm::Recovery),
    Form::Core(CoreForm::Driver),
    Form::Core(CoreForm::Drive),
    Form::Core(CoreForm::Dump),
    Form::Quiet,
];

/// The first word of a form.
fn keyword(form: Form) -> &'static str
    ensures { result.now ≡ keyword form }
{
    match form {
        Form::Call(call) => call_keyword(call),
        Form::Begin(_) => "begin",
        Form::Core(core) => core_keyword(core),
        Form::Link => "link",
        Form::NsLink => "nslink",
        Form::Caller => "caller",
        Form::Step => "step",
        Form::Finish => "finish",
        Form::Pump => "pump",
        Form::Books => "books",
        Form::Ring => "ring",
        Form::Channels => "channels",
        Form::Close => "close",
        Form::Reclaim => "reclaim",
        Form::Reopen => "reopen",
        Form::Quiet => "quiet",
    }
}

/// The kinds of the words of a form.
pub(crate) fn kinds(form: Form) -> &'static [Kind]
    ensures { result.now ≡ kinds form }
{
    match form {
        Form::Call(call) => call_kinds(call),
        Form::Begin(call) => begin_kinds(call),
        Form::Core(core) => core_kinds(core),
        Form::Link | Form::NsLink => &[
            Kind::Keyword,
            Kind::Name,
            Kind::Ring,
            Kind::Ring,
            Kind::Book,
        ],
        Form::Caller => &[Kind::Keyword, Kind::Name, Kind::End],
        Form::Finish | Form::Reclaim => &[Kind::Keyword, Kind::Name, Kind::Caller],
        Form::Step => &[Kind::Keyword, Kind::Name, Kind::Caller, Kind::Count],
        Form::Pump => &[
            Kind::Keyword,
            Kind::Name,
            Kind::Caller,
            Kind::Caller,
            Kind::Count,
        ],
        Form::Books | Form::Channels | Form::Close | Form::Reopen => &[Kind::Keyword, Kind::Name],
        Form::Ring => &[Kind::Keyword, Kind::Name, Kind::Lane],
        Form::Quiet => &[Kind::Keyword, Kind::Switch],
    }
}

/// The command of this form that the words say.
pub(crate) fn command_of(alloc: Global, form: Form, words: &[&[u8]]) -> Result<Command, AllocError>
    ensures { IfOk result (λ command. command ≡ command_of form (map (λ word. word.now) words.now)) }
{
    let name = name_at(words, 1);
    match form {
        Form::Call(call) => call_command(alloc, call, words),
        Form::Begin(call) => begin_command(alloc, call, words),
        Form::Core(core) => Ok(core_command(core, words)),
        Form::Link => {
            let to_host = number_at(words, 2);
            let to_remote = number_at(words, 3);
            let book = number_at(words, 4);
            Ok(Command::Link {
                name,
                entries_to_host: to_host,
                entries_to_remote: to_remote,
                book,
            })
        }
        Form::NsLink => {
            let to_host = number_at(words, 2);
            let to_remote = number_at(words, 3);
            let book = number_at(words, 4);
            Ok(Command::NsLink {
                name,
                entries_to_host: to_host,
                entries_to_remote: to_remote,
                book,
            })
        }
        Form::Caller => Ok(Command::Caller {
            name,
            end: end_at(words, 2),
        }),
        Form::Step => Ok(Command::Step {
            name,
            caller: number_at(words, 2),
            count: number_at(words, 3),
        }),
        Form::Finish => Ok(Command::Finish {
            name,
            caller: number_at(words, 2),
        }),
        Form::Pump => {
            let sender = number_at(words, 2);
            let receiver = number_at(words, 3);
            Ok(Command::Pump {
                name,
                sender,
                receiver,
                count: number_at(words, 4),
            })
        }
        Form::Books => Ok(Command::Books { name }),
        Form::Ring => Ok(Command::Ring {
            name,
            lane: number_at(words, 2),
        }),
        Form::Channels => Ok(Command::Channels { name }),
        Form::Close => Ok(Command::Close { name }),
        Form::Reclaim => Ok(Command::Reclaim {
            name,
            caller: number_at(words, 2),
        }),
        Form::Reopen => Ok(Command::Reopen { name }),
        Form::Quiet => Ok(Command::Quiet {
            switch: switch_at(words, 1),
        }),
    }
}

/// The form that is known by this first word.
pub(crate) fn form_named(word: &[u8]) -> Option<Form>
    ensures { result ≡ form_named word.now }
{
    FORMS
        .iter()
        .copied()
        .find(|form| word == keyword(*form).as_bytes())
}
