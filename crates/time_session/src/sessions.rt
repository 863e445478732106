//! A session of 80 by 24 that was just opened.

ghost use Rattle.std.specs.Prelude.{IfOk};
ghost use Rattle.gate_model.specs.session.Steps.{IsSetup};

use anyhow::{Result, bail};
use gate_model::{Faces, Setup, Share, Text};
use shared_desk::{Desk, HostPass, share};
use std::alloc::Global;
use std::marker::Brand;

/// A desk.
pub fn desk(alloc: Global) -> Result<Desk> {
    let setup = setup(alloc)?;
    match Desk::start(alloc, setup, 0) {
        Ok(desk) => Ok(desk),
        Err(_) => bail!("no memory"),
    }
}

/// The first pass of a session.
pub fn opened(alloc: Global) -> Result<HostPass> {
    let setup = setup(alloc)?;
    let Ok(desk) = Desk::start(alloc, setup, 0) else {
        bail!("no memory");
    };
    let Ok((host, _none)) = share::<Brand>(alloc, desk) else {
        bail!("no memory");
    };
    Ok(host)
}

fn setup(alloc: Global) -> Result<Setup>
    ensures { IfOk result (λ s. IsSetup s) }
{
    let term = Text::of(String::from_str(alloc, "linux")?);
    Ok(Setup {
        cols: 80,
        rows: 24,
        mode: Share::Control,
        term,
        faces: Faces::Ascii,
        entries: 1 << 40,
    })
}
