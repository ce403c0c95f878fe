ghost use Rattle.std.specs.Prelude.{◌≡◌, map, IfOk, IfErr, false, ◌∷◌};
ghost use Rattle.std.specs.List.{list_any};
ghost use Rattle.clap.specs.Words.{kind_of};
ghost use Rattle.script_run.specs.Outputs.{argument_form, argument_of, demo_form, form_of, named_form, numbers_form, plan_form, storm_form, word_form};
ghost use Rattle.word_kinds.specs.Spellings.{name_of};
ghost use Rattle.script_run.specs.Requests.{AreMatched, IsInForm, request_form, begins_with_dash};

use clap::error::ErrorKind;
use clap::{Arg, ArgMatches, Command};
use image_maker::SESSIONS_MOST;
use rp_base::{Name, NoMemory, RING_MOST, is_ring_size};
use std::alloc::Global;
use storm_run::{COUNT_MOST, END_CALLERS_MOST, Plan};
use word_kinds::number_to_base;

/// What the words of the command line ask for.
#[derive(Clone, Copy)]
pub enum Request<'a> {
    /// Nothing that the program does.
    Other,
    /// `run`: to run the script.
    Run,
    /// `check NAME`: to report whether the image of this name loads.
    Check(&'a str, Name),
    /// `demo N`: to run the script of a demo of so many sessions, 1 to 500.
    Demo(u32),
    /// `storm H R N K`: to run the storm of this plan.
    Storm(Plan),
    /// `audit`: to say whether the lines of a transcript keep the rules.
    Audit,
}

/// What these words, those after the name of the program, ask for. A word that begins with `-` asks
/// for nothing that the program does.
pub(crate) fn read_words<'a>(alloc: Global, words: &'a [&'a str]) -> Result<Request<'a>, NoMemory>
    ensures form { IfOk result (λ asked. request_form asked ≡ form_of (map (λ word. word.now) words.now)) }
    ensures in_form { IfOk result IsInForm }
{
    if has_dashed_word(words) {
        return Ok(Request::Other);
    }
    let Ok(matches) = matches_of(alloc, words) else {
        return Err(NoMemory);
    };
    let Some(job) = matches.get_str("JOB") else {
        return Ok(Request::Other);
    };
    let args = matches.get_strs("ARGS").unwrap_or(&[]);
    Ok(ask_by(job, args))
}

/// Whether some word begins with `-`.
fn has_dashed_word(words: &[&str]) -> bool
    ensures { result ≡ list_any (λ word. begins_with_dash word.now) words.now }
{
    words.iter().any(|word| begins_with_a_dash(word))
}

fn begins_with_a_dash(word: &str) -> bool
    ensures { result ≡ begins_with_dash word.now }
{
    word.as_bytes().first() == Some(&b'-')
}

/// The words, as a job and its arguments. Of words without a dash the parser refuses none.
fn matches_of<'a>(alloc: Global, words: &'a [&'a str]) -> Result<ArgMatches<'a>, clap::Error>
    requires plain { list_any (λ word. begins_with_dash word.now) words.now ≡ false }
    ensures matched { IfOk result (AreMatched (map (λ word. word.now) words.now)) }
    ensures memory { IfErr result (λ error. kind_of error ≡ ErrorKind.OutOfMemory) }
{
    let job = Arg::new(alloc, "JOB");
    let args = Arg::new(alloc, "ARGS").num_args(1..);
    let command = Command::new(alloc, "rproc")
        .no_binary_name(true)
        .disable_help_flag(true)
        .arg(job)?
        .arg(args)?;
    command.try_get_matches_from(words)
}

/// What this job with these arguments asks for.
fn ask_by<'a>(job: &'a str, args: &[&'a str]) -> Request<'a>
    ensures form { request_form result ≡ form_of (job.now ∷ map (λ word. word.now) args.now) }
    ensures in_form { IsInForm result }
{
    match args {
        [] if job == "run" => Request::Run,
        [] if job == "audit" => Request::Audit,
        [argument] if job == "check" => name_in_word(argument),
        [argument] if job == "demo" => sessions_in_word(argument),
        [hosts, remotes, count, num] if job == "storm" => {
            plan_in_words(hosts, remotes, count, num)
        }
        _ => Request::Other,
    }
}

fn name_in_word(word: &str) -> Request<'_>
    ensures form { request_form result ≡ named_form (name_of word.now) }
    ensures in_form { IsInForm result }
{
    match script_lang::name(word.as_bytes()) {
        Some(name) => Request::Check(word, name),
        None => Request::Other,
    }
}

fn sessions_in_word(word: &str) -> Request<'_>
    ensures form { request_form result ≡ demo_form (argument_of word.now) }
    ensures in_form { IsInForm result }
{
    match argument(word.as_bytes()) {
        Some(sessions) if sessions >= 1 && sessions <= u64::from(SESSIONS_MOST) => {
            Request::Demo(sessions as u32)
        }
        _ => Request::Other,
    }
}

fn plan_in_words<'a>(hosts: &str, remotes: &str, count: &str, num: &str) -> Request<'a>
    ensures form { request_form result ≡ storm_form (argument_of hosts.now) (argument_of remotes.now) (argument_of count.now) (argument_of num.now) }
    ensures in_form { IsInForm result }
{
    match (
        argument(hosts.as_bytes()),
        argument(remotes.as_bytes()),
        argument(count.as_bytes()),
        argument(num.as_bytes()),
    ) {
        (Some(hosts), Some(remotes), Some(count), Some(num)) => {
            plan_of_numbers(hosts, remotes, count, num)
        }
        _ => Request::Other,
    }
}

fn plan_of_numbers<'a>(hosts: u64, remotes: u64, count: u64, num: u64) -> Request<'a>
    ensures form { request_form result ≡ plan_form (record { hosts = hosts; remotes = remotes; count = count; num = num }) }
    ensures in_form { IsInForm result }
{
    if (1..=u64::from(END_CALLERS_MOST)).contains(&hosts)
        && (1..=u64::from(END_CALLERS_MOST)).contains(&remotes)
        && (1..=u64::from(COUNT_MOST)).contains(&count)
        && num <= u64::from(RING_MOST)
        && is_ring_size(num as u32)
    {
        Request::Storm(Plan {
            hosts: hosts as u8,
            remotes: remotes as u8,
            count: count as u32,
            num: num as u32,
        })
    } else {
        Request::Other
    }
}

/// The number of one to ten decimal digits; none above 2^32 - 1.
fn argument(word: &[u8]) -> Option<u64>
    ensures { result ≡ argument_of word.now }
{
    match word.len() {
        1..=10 => number_to_base(10, word),
        _ => None,
    }
}
