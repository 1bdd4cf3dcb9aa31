//! Keeps an index of colours in the current folder. The codebook comes from standard input.
#![tactic(auto)]

use ann_disk::DiskFile;
use ann_index::Index;
use ann_init::{InitEnd, init};
use ann_log::Files;
use ann_merge::NoGate;
use ann_outside::StdSource;
use ann_recover::recover;
use ann_types::{Ask, Change, Params, Vector};
use ann_vault::{FolderEye, FolderVault};
use anyhow::{Result, anyhow};
use std::alloc::{AllocError, Global};

/// A change that names a colour.
fn colour(alloc: Global, tag: u64, rgb: [u8; 3]) -> Result<Change, AllocError> {
    let vector = Vector::copy(alloc, &rgb)?;
    Ok(Change::Insert { tag, vector })
}

/// Keeps three colours, and tells the two that are nearest to orange.
fn main(rt: HostRuntime) -> Result<()> {
    let alloc = rt.alloc();
    let params = Params::new(3, 16, 32, 12, 10, 4, 3, 1000).ok_or(anyhow!("parameters"))?;
    let first = DiskFile::new(rt, "ann.log");
    let second = DiskFile::new(rt, "ann2.log");
    let mut input = StdSource::new(rt.stdin());
    // An index that is there is left as it is.
    let InitEnd { files, .. } = init(alloc, &mut input, Files { first, second }, &params);
    let eyes = vec![in alloc; FolderEye::new()]?;
    let Ok(parts) = recover(alloc, files, FolderVault::new(rt), eyes) else {
        return Err(anyhow!("the index can't be opened"));
    };
    if parts.eyes.is_empty() {
        return Err(anyhow!("no eye for a merge"));
    }
    let Ok(mut colours) = Index::open(alloc, parts, FolderEye::new()) else {
        return Err(anyhow!("memory"));
    };
    let red_and_green = [
        colour(alloc, 1, [255, 0, 0])?,
        colour(alloc, 2, [0, 160, 0])?,
    ];
    let receipt = colours.update(&red_and_green)?;
    println!(rt; "two colours are the entries up to {}", receipt.at)?;
    let merged = colours.merge(&rt, 1, &NoGate)?;
    println!(rt; "segment {} holds them", merged.segment)?;
    colours.update(&[colour(alloc, 3, [0, 0, 255])?])?;
    let orange = Vector::copy(alloc, &[255, 140, 0])?;
    let ask = Ask::new(2, 10, orange).ok_or(anyhow!("limits"))?;
    colours.search(&ask)?;
    for hit in colours.hits() {
        println!(rt; "colour {} at a distance of {}", hit.tag, hit.distance)?;
    }
    Ok(())
}
