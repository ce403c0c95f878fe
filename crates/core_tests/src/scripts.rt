use crate::stores::store_of;
use rp_io::MemorySink;
use script_lang::parse;
use script_run::{Yard, run_script};
use std::alloc::Global;
use std::test::Fail;

/// Scripts over a store that has the image `fw`, each with the bytes that the sink has room for, the
/// status, and the output; in both texts a `;` stands for a line feed.
const RUNS: [(&str, usize, u8, &str); 4] = [
    ("# nothing is asked;", 100, 0, ""),
    (
        "link L 4 4 16;caller L remote;caller L host;send L 0 1 1024 6869;send L 0 1 1024 -;\
        take L 1;take L 1;give L 1 0;",
        300,
        0,
        "L open 1;L caller 0 remote;L caller 1 host;L 0 sent 0;L 0 sent 1;\
        L 1 took 0 from 1 dropped 1024 6869;L 1 took 1 from 1 dropped 1024 -;L 1 gave 0;",
    ),
    (
        "core c0 std 16;boot c0 none;boot c0 fw;boot c0 fw",
        100,
        0,
        "c0 offline;c0 missing none;c0 running 1;c0 users 2;",
    ),
    ("link L 4 4 16;caller L remote", 15, 4, "L open 1;L call"),
];

/// The status of a run of this script, and what its sink was given.
fn outcome(alloc: Global, text: &str, room: usize) -> Result<(u8, Vec<u8>), Fail> {
    let Ok(script) = parse(alloc, text.as_bytes()) else {
        return Err("no script".into());
    };
    let mut store = store_of(alloc, "fw")?;
    let mut sink = MemorySink::new(alloc, room, 7, Vec::new(alloc))?;
    let mut yard = Yard::new(alloc)?;
    let status = run_script(alloc, &script, &mut store, &mut yard, &mut sink);
    Ok((status, Vec::from_slice(alloc, sink.bytes())?))
}

/// The text with line feeds in place of `;`.
fn unfolded(alloc: Global, text: &str) -> Result<String, Fail> {
    Ok(text.replace(alloc, ";", "\n")?)
}

#[test]
fn a_script_is_run_over_a_store(rt: HostRuntime) -> Result<(), Fail> {
    let alloc = rt.alloc();
    for (text, room, wanted, output) in RUNS {
        let script = unfolded(alloc, text)?;
        let (status, written) = outcome(alloc, script.as_str(), room)?;
        assert_eq!(rt; status, wanted, "at {text:?}");
        assert_eq!(rt;
            written.as_slice(),
            unfolded(alloc, output)?.as_bytes(),
            "at {text:?}"
        );
    }
    Ok(())
}
