ghost use Rattle.std.specs.Prelude.{◌≡◌, map, option_map, true, false};
ghost use Rattle.rproc_dump.specs.Dumps.{named_wish, wish_of, wish_view};

/// What is asked for.
#[derive(Clone, Copy)]
pub(crate) struct Wish<'a> {
    /// Whether the transcript is not written.
    pub(crate) is_quiet: bool,
    /// The name of the image that is written.
    pub(crate) name: &'a str,
}

/// What these words, those after the name of the program, ask for: `NAME`, or `-q NAME`.
pub(crate) fn read_words<'a>(words: &[&'a str]) -> Option<Wish<'a>>
    ensures { option_map wish_view result ≡ wish_of (map (λ word. word.now) words.now) }
{
    match words {
        [name] => wish_for(false, name),
        [option, name] if *option == "-q" => wish_for(true, name),
        _ => None,
    }
}

/// The image of this word is asked for, where it is a name.
fn wish_for(is_quiet: bool, name: &str) -> Option<Wish<'_>>
    ensures { option_map wish_view result ≡ named_wish is_quiet name.now }
{
    let _ = word_kinds::name(name.as_bytes())?;
    Some(Wish { is_quiet, name })
}
