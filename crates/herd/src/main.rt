// `herd [DIR]`: answers each line of standard input by one line of standard output, over the kept words in DIR.
#![tactic(auto)]

mod serve;
mod trouble;

use calls::mind::Mind;
use device::disk::Paths;
use device::filed::Filed;
use device::kept::WORDS;
use device::open::open;
use serve::serve;
use std::env;
use together::herd::wake;
use trouble::Trouble;

// The directory of the kept words: the only argument, else the one that it is started in.
fn directory(rt: &HostRuntime) -> Result<String, Trouble> {
    let mut args = env::args(rt).map_err(Trouble::Arguments)?.skip(1);
    let Some(dir) = args.next() else {
        return Ok(String::from_str(rt.alloc(), ".")?);
    };
    if args.next().is_some() {
        return Err(Trouble::Usage);
    }
    Ok(dir)
}

// The words of the file `kept` in this directory, made where there is none.
fn kept<'a>(
    rt: &HostRuntime,
    dir: &str,
    mirror: &'a mut [u64; WORDS],
) -> Result<Filed<'a>, Trouble> {
    let file = format!(in rt.alloc(); "{dir}/kept")?;
    let aside = format!(in rt.alloc(); "{dir}/kept.new");
    let path = aside.as_deref().map_err(|e| *e);
    let paths = Paths {
        file: file.as_str(),
        dir,
    };
    Ok(open(rt, paths, path, mirror)?)
}

// The mirror of the kept words and the mind are lent from the stack.
fn run(rt: &HostRuntime) -> Result<(), Trouble> {
    let dir = directory(rt)?;
    let mut mirror = [0u64; WORDS];
    let mut words = kept(rt, dir.as_str(), &mut mirror)?;
    let mut mind = Mind::new();
    if !wake(&words, &mut mind) {
        return Err(Trouble::Damaged);
    }
    serve(rt, &mut words, &mut mind)
}

fn main(rt: HostRuntime) -> Result<(), Trouble> {
    run(&rt).inspect_err(|e| {
        let _ = eprintln!(rt; "herd: {e}");
    })
}
