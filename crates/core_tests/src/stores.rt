use image_maker::build;
use rp_base::Name;
use rp_io::MemoryStore;
use script_lang::{Command, parse};
use std::alloc::Global;
use std::test::Fail;

/// A segment of 16 bytes at 0, and a table at 0x100 with a device for RPMsg.
const RECIPE: &str =
    "image a\nentry 0\nload 0 - 16\ntable 0x100\nvdev 7 3\nvring any 4096 16\nvring any 4096 8\nend";

/// A store that has the image of that recipe under this name.
pub(crate) fn store_of(alloc: Global, name: &str) -> Result<MemoryStore, Fail> {
    store_with(alloc, name, RECIPE)
}

/// A store that has the image of a recipe under this name.
pub(crate) fn store_with(alloc: Global, name: &str, recipe: &str) -> Result<MemoryStore, Fail> {
    let script = parse(alloc, recipe.as_bytes()).ok().ok_or("no script")?;
    let image = match script.commands.as_slice() {
        [Command::Image { recipe, .. }] => build(alloc, recipe)?,
        _ => return Err("no image".into()),
    };
    let name = Name::of(name.as_bytes()).ok_or("no name")?;
    let images = vec![in alloc; (name, image)]?;
    Ok(MemoryStore::new(images, Vec::new(alloc)))
}
