use crate::devices::Devices;
use rp_base::Name;
use std::fs;
use std::io::{self, ErrorKind};

/// What a row gives the program.
#[derive(Drop)]
pub struct Row {
    /// The words after the program's name, one a line.
    pub words: String,
    pub script: Vec<u8>,
    pub images: Vec<(Name, Vec<u8>)>,
    pub devices: Devices,
}

/// A line of `devices` that takes each number of a range in turn: from `first` on, and below `end`.
#[derive(Drop)]
struct Each {
    what: String,
    first: u32,
    end: u32,
}

impl Each {
    /// The file `each` of a row, one line as `sink fails 0..265`, or none where there is no such file.
    fn read(rt: &HostRuntime, name: &str) -> io::Result<Option<Each>> {
        let Some(bytes) = file_of(rt, name, "each")? else {
            return Ok(None);
        };
        let text = text_of(bytes)?;
        let (what, first, end) = parts_of(text.as_str()).ok_or(ErrorKind::InvalidData)?;
        Ok(Some(Each {
            what: String::from_str(rt.alloc(), what)?,
            first,
            end,
        }))
    }
}

/// A line as `sink fails 0..265` and its parts.
fn parts_of(text: &str) -> Option<(&str, u32, u32)> {
    let (what, range) = text.trim_end().rsplit_once(' ')?;
    let (first, end) = range.split_once("..")?;
    Some((what, first.parse().ok()?, end.parse().ok()?))
}

impl Row {
    /// The row of this name, from its folder in `rows`: the files `words` (without it the word is
    /// `run`), `script`, `devices` and those of the folder `firmware`.
    pub(crate) fn read(rt: &HostRuntime, name: &str) -> io::Result<Row> {
        let words = file_of(rt, name, "words")?;
        let script = file_of(rt, name, "script")?;
        let devices = devices_of(file_of(rt, name, "devices")?)?;
        Ok(Row {
            words: text_of(words.unwrap_or(vec![in rt.alloc(); b'r', b'u', b'n']?))?,
            script: longer(
                script.unwrap_or(Vec::new(rt.alloc())),
                devices.source_length,
            )?,
            images: images_of(rt, name, devices.store_length)?,
            devices,
        })
    }
}

/// The runs of the row of this name, each under its title: one, or where it has the file `each` one for each of its numbers.
pub(crate) fn runs_of(rt: &HostRuntime, name: &str) -> io::Result<Vec<(String, Row)>> {
    let mut runs = Vec::new(rt.alloc());
    let Some(each) = Each::read(rt, name)? else {
        runs.push((String::from_str(rt.alloc(), name)?, Row::read(rt, name)?))?;
        return Ok(runs);
    };
    for number in each.first..each.end {
        let mut row = Row::read(rt, name)?;
        if !row.devices.set(each.what.as_str(), number) {
            return Err(ErrorKind::InvalidData.into());
        }
        let title = format!(in rt.alloc(); "{name}, {} {number}", each.what)?;
        runs.push((title, row))?;
    }
    Ok(runs)
}

/// The bytes with zeros after them, so many in all where there are fewer.
fn longer(mut bytes: Vec<u8>, length: usize) -> io::Result<Vec<u8>> {
    bytes.resize(bytes.len().max(length), 0)?;
    Ok(bytes)
}

fn text_of(bytes: Vec<u8>) -> io::Result<String> {
    String::from_utf8(bytes).map_err(|_| ErrorKind::InvalidData.into())
}

fn devices_of(file: Option<Vec<u8>>) -> io::Result<Devices> {
    match file {
        Some(bytes) => {
            Devices::read(text_of(bytes)?.as_str()).ok_or(ErrorKind::InvalidData.into())
        }
        None => Ok(Devices::new()),
    }
}

/// The bytes of a file of a row, or none where there is no such file.
fn file_of(rt: &HostRuntime, row: &str, file: &str) -> io::Result<Option<Vec<u8>>> {
    let path = format!(in rt.alloc(); "rows/{row}/{file}")?;
    match fs::read(rt, path.as_str()) {
        Ok(bytes) => Ok(Some(bytes)),
        Err(error) if error.kind() == ErrorKind::NotFound => Ok(None),
        Err(error) => Err(error),
    }
}

/// The images in the folder `firmware` of a row, by name, each of at least so many bytes.
fn images_of(rt: &HostRuntime, row: &str, length: usize) -> io::Result<Vec<(Name, Vec<u8>)>> {
    let mut images = Vec::new(rt.alloc());
    let folder = format!(in rt.alloc(); "rows/{row}/firmware")?;
    if !fs::exists(rt, folder.as_str())? {
        return Ok(images);
    }
    for file in names_in(rt, folder.as_str())?.iter() {
        let path = format!(in rt.alloc(); "{folder}/{file}")?;
        let name = Name::of(file.as_bytes()).ok_or(ErrorKind::InvalidFilename)?;
        images.push((name, longer(fs::read(rt, path.as_str())?, length)?))?;
    }
    Ok(images)
}

/// The names of what is in a folder, in the order of their bytes.
pub(crate) fn names_in(rt: &HostRuntime, folder: &str) -> io::Result<Vec<String>> {
    let mut names = Vec::new(rt.alloc());
    for entry in fs::read_dir(rt, folder)? {
        names.push(String::from_str(rt.alloc(), entry?.file_name())?)?;
    }
    names.sort()?;
    Ok(names)
}
