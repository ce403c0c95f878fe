ghost use Rattle.std.specs.Prelude.{◌≡◌, true, IfOk, map};
ghost use Rattle.script_lang.specs.Recipes.{recipe_keyword, recipe_kinds, recipe_line, recipe_form_named, is_allowed, rings_of, context_after};

use crate::recipes::RecipeLine;
use crate::record_forms::{RecordForm, record_keyword, record_kinds, record_line};
use std::alloc::{AllocError, Global};
use word_kinds::{Kind, address_at, bytes_at, name_at, number_at};

/// The form of a recipe line: its keyword, and the kinds of its words.
#[derive(Clone, Copy, Drop)]
pub(crate) enum RecipeForm {
    Entry,
    Load,
    Table,
    Carveout,
    Devmem,
    Trace,
    Vdev,
    Vring,
    Vendor,
    Code,
    /// A record of a worker's code.
    Record(RecordForm),
}

/// The forms of recipe lines.
pub(crate) const RECIPE_FORMS: [RecipeForm; 19] = [
    RecipeForm::Entry,
    RecipeForm::Load,
    RecipeForm::Table,
    RecipeForm::Carveout,
    RecipeForm::Devmem,
    RecipeForm::Trace,
    RecipeForm::Vdev,
    RecipeForm::Vring,
    RecipeForm::Vendor,
    RecipeForm::Code,
    RecipeForm::Record(RecordForm::Halt),
    RecipeForm::Record(RecordForm::Announce),
    RecipeForm::Record(RecordForm::Bind),
    RecipeForm::Record(RecordForm::Send),
    RecipeForm::Record(RecordForm::Raw),
    RecipeForm::Record(RecordForm::Take),
    RecipeForm::Record(RecordForm::Log),
    RecipeForm::Record(RecordForm::Crash),
    RecipeForm::Record(RecordForm::Loop),
];

/// What the last line of a recipe was.
#[derive(Clone, Copy, Drop)]
pub(crate) enum Behind {
    /// None of the table, and none of a code.
    Other,
    /// The begin of a code, or a record of it.
    Code,
    /// One of the table, and neither a device nor a ring.
    Table,
    /// A device or a ring of it: how many rings the device has.
    Device(u32),
}

/// What the lines of a recipe before say of those that may follow.
#[derive(Clone, Copy, Drop)]
pub(crate) struct Context {
    pub(crate) has_table: bool,
    pub(crate) behind: Behind,
}

/// The word by which a form is known.
fn recipe_keyword(form: RecipeForm) -> &'static str
    ensures { result.now ≡ recipe_keyword form }
{
    match form {
        RecipeForm::Entry => "entry",
        RecipeForm::Load => "load",
        RecipeForm::Table => "table",
        RecipeForm::Carveout => "carveout",
        RecipeForm::Devmem => "devmem",
        RecipeForm::Trace => "trace",
        RecipeForm::Vdev => "vdev",
        RecipeForm::Vring => "vring",
        RecipeForm::Vendor => "vendor",
        RecipeForm::Code => "code",
        RecipeForm::Record(record) => record_keyword(record),
    }
}

/// The form that is known by this word.
pub(crate) fn recipe_form_named(word: &[u8]) -> Option<RecipeForm>
    ensures { result ≡ recipe_form_named word.now }
{
    RECIPE_FORMS
        .iter()
        .copied()
        .find(|form| word == recipe_keyword(*form).as_bytes())
}

/// The kinds of the words of a form.
pub(crate) fn recipe_kinds(form: RecipeForm) -> &'static [Kind]
    ensures { result.now ≡ recipe_kinds form }
{
    match form {
        RecipeForm::Entry | RecipeForm::Table | RecipeForm::Code => &[Kind::Keyword, Kind::Number],
        RecipeForm::Record(record) => record_kinds(record),
        RecipeForm::Load => &[Kind::Keyword, Kind::Number, Kind::Payload, Kind::Number],
        RecipeForm::Carveout => &[Kind::Keyword, Kind::Address, Kind::Number, Kind::Name],
        RecipeForm::Devmem => &[
            Kind::Keyword,
            Kind::Number,
            Kind::Number,
            Kind::Number,
            Kind::Name,
        ],
        RecipeForm::Trace => &[Kind::Keyword, Kind::Number, Kind::Number, Kind::Name],
        RecipeForm::Vdev => &[Kind::Keyword, Kind::Number, Kind::Number],
        RecipeForm::Vring => &[Kind::Keyword, Kind::Address, Kind::Number, Kind::Number],
        RecipeForm::Vendor => &[Kind::Keyword, Kind::Vendor],
    }
}

/// The recipe line of this form that the words say.
pub(crate) fn recipe_line(
    alloc: Global,
    form: RecipeForm,
    words: &[&[u8]],
) -> Result<RecipeLine, AllocError>
    ensures { IfOk result (λ said. said ≡ recipe_line form (map (λ word. word.now) words.now)) }
{
    match form {
        RecipeForm::Entry => Ok(RecipeLine::Entry(number_at(words, 1))),
        RecipeForm::Load => {
            let da = number_at(words, 1);
            let bytes = bytes_at(alloc, words, 2)?;
            Ok(RecipeLine::Load(da, bytes, number_at(words, 3)))
        }
        RecipeForm::Table => Ok(RecipeLine::Table(number_at(words, 1))),
        RecipeForm::Carveout => {
            let da = address_at(words, 1);
            let len = number_at(words, 2);
            Ok(RecipeLine::Carveout(da, len, name_at(words, 3)))
        }
        RecipeForm::Devmem => {
            let da = number_at(words, 1);
            let pa = number_at(words, 2);
            let len = number_at(words, 3);
            Ok(RecipeLine::Devmem(da, pa, len, name_at(words, 4)))
        }
        RecipeForm::Trace => {
            let da = number_at(words, 1);
            let len = number_at(words, 2);
            Ok(RecipeLine::Trace(da, len, name_at(words, 3)))
        }
        RecipeForm::Vdev => Ok(RecipeLine::Vdev(number_at(words, 1), number_at(words, 2))),
        RecipeForm::Vring => {
            let da = address_at(words, 1);
            let align = number_at(words, 2);
            Ok(RecipeLine::Vring(da, align, number_at(words, 3)))
        }
        RecipeForm::Vendor => Ok(RecipeLine::Vendor(number_at(words, 1))),
        RecipeForm::Code => Ok(RecipeLine::Code(number_at(words, 1))),
        RecipeForm::Record(record) => Ok(record_line(record, words)),
    }
}

/// Whether a line of this form may be here.
pub(crate) fn is_allowed(context: Context, form: RecipeForm) -> bool
    ensures { result ≡ is_allowed context form }
{
    match form {
        RecipeForm::Entry | RecipeForm::Load | RecipeForm::Code => true,
        RecipeForm::Record(_) => matches!(context.behind, Behind::Code),
        RecipeForm::Table => !context.has_table,
        RecipeForm::Carveout
        | RecipeForm::Devmem
        | RecipeForm::Trace
        | RecipeForm::Vdev
        | RecipeForm::Vendor => matches!(context.behind, Behind::Table | Behind::Device(_)),
        RecipeForm::Vring => match context.behind {
            Behind::Device(rings) => rings < 255,
            _ => false,
        },
    }
}

/// What a line of this form that may be here says of those after it.
pub(crate) fn context_after(context: Context, form: RecipeForm) -> Context
    requires { is_allowed context form ≡ true }
    ensures { result ≡ context_after context form }
{
    match form {
        RecipeForm::Entry | RecipeForm::Load => Context {
            has_table: context.has_table,
            behind: Behind::Other,
        },
        RecipeForm::Code | RecipeForm::Record(_) => Context {
            has_table: context.has_table,
            behind: Behind::Code,
        },
        RecipeForm::Table => Context {
            has_table: true,
            behind: Behind::Table,
        },
        RecipeForm::Carveout | RecipeForm::Devmem | RecipeForm::Trace | RecipeForm::Vendor => {
            Context {
                has_table: context.has_table,
                behind: Behind::Table,
            }
        }
        RecipeForm::Vdev => Context {
            has_table: context.has_table,
            behind: Behind::Device(0),
        },
        RecipeForm::Vring => Context {
            has_table: context.has_table,
            behind: Behind::Device(rings_of(context.behind) + 1),
        },
    }
}

fn rings_of(behind: Behind) -> u32
    ensures { result ≡ rings_of behind }
{
    match behind {
        Behind::Device(rings) => rings,
        _ => 0,
    }
}
