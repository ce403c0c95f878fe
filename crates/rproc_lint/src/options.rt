use clap::{Arg, ArgAction, ArgMatches, Command, Error};
use std::alloc::Global;

/// The command line: options, the path of a board file, and those of images.
pub(crate) fn matches_of<'a>(alloc: Global, words: &'a [&'a str]) -> Result<ArgMatches<'a>, Error> {
    let quiet = Arg::new(alloc, "quiet")
        .short('q')
        .long("quiet")
        .help("Writes findings alone, and nothing of an image without one")
        .action(ArgAction::SetTrue);
    let json = Arg::new(alloc, "json")
        .long("json")
        .help("Writes one JSON document for programs")
        .action(ArgAction::SetTrue);
    let board = Arg::new(alloc, "BOARD")
        .help("The board file: which memory the core has")
        .required(true);
    let images = Arg::new(alloc, "IMAGE")
        .help("The firmware images, ELF32 or ELF64")
        .required(true)
        .num_args(1..);
    let command = Command::new(alloc, "rproc-lint")
        .version("1.0")
        .about("Says whether firmware images load on a board, and why not.")
        .arg(quiet)?
        .arg(json)?
        .arg(board)?
        .arg(images)?;
    command.try_get_matches_from(words)
}
