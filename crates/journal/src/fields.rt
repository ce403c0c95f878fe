ghost use Rattle.std.specs.Prelude.{◌≡◌, ◌∷◌, [], map};
ghost use Rattle.word_kinds.specs.Texts.{Fixed};
ghost use Rattle.word_kinds.specs.Lines.{word_of};

use crate::table::Form;
use word_kinds::Piece;

/// The form of a line, and in their order what is in its places without a fixed word, in front
/// of empty words.
#[derive(Clone, Copy, Drop)]
pub(crate) struct Fields<'a> {
    pub(crate) form: Form,
    pub(crate) values: [Piece<'a>; 6],
}

impl<'a> Fields<'a> {
    /// The form of a line with one field.
    pub(crate) fn one(form: Form, a: Piece<'a>) -> Fields<'a>
        ensures form { result.form ≡ form }
        ensures values { map word_of result.values ≡ word_of a.entry ∷ Fixed [] ∷ Fixed [] ∷ Fixed [] ∷ Fixed [] ∷ Fixed [] ∷ [] }
    {
        let empty = Piece::Fixed("");
        Fields {
            form,
            values: [a, empty, empty, empty, empty, empty],
        }
    }

    /// The form of a line with two fields.
    pub(crate) fn two(form: Form, a: Piece<'a>, b: Piece<'a>) -> Fields<'a>
        ensures form { result.form ≡ form }
        ensures values { map word_of result.values ≡ word_of a.entry ∷ word_of b.entry ∷ Fixed [] ∷ Fixed [] ∷ Fixed [] ∷ Fixed [] ∷ [] }
    {
        let empty = Piece::Fixed("");
        Fields {
            form,
            values: [a, b, empty, empty, empty, empty],
        }
    }

    /// The form of a line with three fields.
    pub(crate) fn three(form: Form, a: Piece<'a>, b: Piece<'a>, c: Piece<'a>) -> Fields<'a>
        ensures form { result.form ≡ form }
        ensures values { map word_of result.values ≡ word_of a.entry ∷ word_of b.entry ∷ word_of c.entry ∷ Fixed [] ∷ Fixed [] ∷ Fixed [] ∷ [] }
    {
        let empty = Piece::Fixed("");
        Fields {
            form,
            values: [a, b, c, empty, empty, empty],
        }
    }

    /// The form of a line with four fields.
    pub(crate) fn four(
        form: Form,
        a: Piece<'a>,
        b: Piece<'a>,
        c: Piece<'a>,
        d: Piece<'a>,
    ) -> Fields<'a>
        ensures form { result.form ≡ form }
        ensures values { map word_of result.values ≡ word_of a.entry ∷ word_of b.entry ∷ word_of c.entry ∷ word_of d.entry ∷ Fixed [] ∷ Fixed [] ∷ [] }
    {
        let empty = Piece::Fixed("");
        Fields {
            form,
            values: [a, b, c, d, empty, empty],
        }
    }

    /// The form of a line with five fields.
    pub(crate) fn five(
        form: Form,
        a: Piece<'a>,
        b: Piece<'a>,
        c: Piece<'a>,
        d: Piece<'a>,
        e: Piece<'a>,
    ) -> Fields<'a>
        ensures form { result.form ≡ form }
        ensures values { map word_of result.values ≡ word_of a.entry ∷ word_of b.entry ∷ word_of c.entry ∷ word_of d.entry ∷ word_of e.entry ∷ Fixed [] ∷ [] }
    {
        let empty = Piece::Fixed("");
        Fields {
            form,
            values: [a, b, c, d, e, empty],
        }
    }

    /// The form of a line with six fields.
    pub(crate) fn six(
        form: Form,
        a: Piece<'a>,
        b: Piece<'a>,
        c: Piece<'a>,
        d: Piece<'a>,
        e: Piece<'a>,
        f: Piece<'a>,
    ) -> Fields<'a>
        ensures form { result.form ≡ form }
        ensures values { map word_of result.values ≡ word_of a.entry ∷ word_of b.entry ∷ word_of c.entry ∷ word_of d.entry ∷ word_of e.entry ∷ word_of f.entry ∷ [] }
    {
        Fields {
            form,
            values: [a, b, c, d, e, f],
        }
    }
}
