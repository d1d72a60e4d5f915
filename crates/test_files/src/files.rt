//! The calls of a file disk on two real files, in a folder that is made for them and removed afterwards.
use anyhow::Error;
use disk::{Disk, DiskError, FileDisk, Side};
use std::fs;
use std::io::Print;
use std::path::Path;

const FOLDER: &str = "two_files";

/// Prints the results of the calls.
pub(crate) fn tell_calls(rt: &HostRuntime) -> Result<(), Error> {
    println!(rt; "without its folder: {}", opening(rt))?;
    fs::create_dir(rt, FOLDER)?;
    let disk = FileDisk::open(rt.alloc(), rt, FOLDER)?;
    let disk = tell_files(rt, disk)?;
    let disk = tell_refusals(rt, disk)?;
    println!(rt; "opened a second time: {}", opening(rt))?;
    drop(disk);
    println!(rt; "opened again: {}", opening(rt))?;
    let kept = fs::read(rt, Path::new(FOLDER).join(rt.alloc(), "A")?)?;
    println!(rt; "file A is {kept:?}")?;
    fs::remove_dir_all(rt, FOLDER)?;
    Ok(())
}

// The result of opening the folder.
fn opening(rt: &HostRuntime) -> &'static str {
    match FileDisk::open(rt.alloc(), rt, FOLDER) {
        Ok(_) => "a disk",
        Err(DiskError::Device) => "the device failed",
        Err(DiskError::NoMemory) => "no memory",
    }
}

// Writes, reads and cuts.
fn tell_files(rt: &HostRuntime, mut disk: FileDisk) -> Result<FileDisk, Error> {
    let mut bytes = [0; 2];
    let (a, b) = write_and_cut(&mut disk, &mut bytes)?;
    println!(rt; "file A has {a} bytes, file B {b}; read: {bytes:?}")?;
    Ok(disk)
}

// The lengths of both files after a write, a sync, a read and a cut.
fn write_and_cut(disk: &mut FileDisk, bytes: &mut [u8]) -> Result<(u64, u64), DiskError> {
    disk.write_at(Side::A, 0, &[1, 2, 3])?;
    disk.sync(Side::A)?;
    disk.read(Side::A, 1, bytes)?;
    disk.cut(Side::A, 1)?;
    let a = disk.len(Side::A)?;
    let b = disk.len(Side::B)?;
    Ok((a, b))
}

// Reads and writes past the end of the files, and past the greatest length that the system allows.
fn tell_refusals(rt: &HostRuntime, mut disk: FileDisk) -> Result<FileDisk, Error> {
    let greatest = i64::MAX as u64;
    let mut bytes = [0; 2];
    let answers = [
        disk.read(Side::A, 0, &mut bytes),
        disk.read(Side::A, u64::MAX, &mut bytes),
        disk.write_at(Side::B, greatest, &[1]),
        disk.cut(Side::A, greatest + 1),
    ];
    for answer in answers {
        match answer {
            Ok(()) => println!(rt; "done")?,
            Err(error) => println!(rt; "refused: {error}")?,
        }
    }
    Ok(disk)
}
