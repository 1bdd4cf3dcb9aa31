ghost use Rattle.std.specs.Prelude.{◌≡◌};
ghost use Rattle.std.specs.FinMap as map;
ghost use Rattle.ann_vault.specs.Memory.{memory_held};

use ann_vault::{
    Eye, Failed, FolderEye, FolderSeal, FolderVault, MemoryEye, MemorySeal, MemoryVault,
    NumbersRefused, Vault,
};
use std::alloc::Global;
use std::fs;
use std::test::Fail;

// Vaults, drafts and eyes may be moved into a thread, and seals shared.
fn cross<V, E>(_vault: &V, _eye: &E)
where
    V: Vault + Send,
    V::Draft: Send,
    V::Seal: Send + Sync,
    E: Eye<Seal = V::Seal> + Send,
{}

// Through the bounds alone: writes a draft, and says how long an eye sees it sealed.
fn sealed_length<V: Vault, E: Eye<Seal = V::Seal>>(
    vault: &mut V,
    eye: &mut E,
    mut draft: V::Draft,
    bytes: &[u8],
) -> Result<u64, Failed>
    requires { V.Seal.tells → V.is_current vault.old draft }
{
    vault.write(&mut draft, bytes)?;
    let seal = vault.seal(draft)?;
    eye.length(&seal)
}

fn is_there<V: Vault>(vault: &mut V, number: u64) -> Result<bool, Failed> {
    Ok(vault.open(number)?.is_some())
}

// Whether these numbers are sealed.
fn are_sealed<V: Vault>(alloc: Global, vault: &mut V, wanted: &[u64]) -> Result<bool, Fail> {
    let mut numbers = vec![in alloc; 1, 2]?;
    vault.numbers(&mut numbers)?;
    Ok(numbers.as_slice() == wanted)
}

// Seals three bytes under the number 7, which are written in two pieces.
fn seal_three(vault: &mut MemoryVault) -> Result<MemorySeal, Failed>
    requires { memory_held vault.old ≡ map.empty }
{
    let mut draft = vault.create(7)?;
    vault.write(&mut draft, b"ab")?;
    vault.write(&mut draft, b"c")?;
    vault.seal(draft)
}

// Whether the bytes of a seal are held under 7 alone until it is removed.
fn is_held(alloc: Global, vault: &mut MemoryVault, seal: MemorySeal) -> Result<bool, Fail> {
    let bytes = seal.bytes() == b"abc".as_slice();
    let alone = are_sealed(alloc, vault, &[7])? && is_there(vault, 7)? && !is_there(vault, 3)?;
    vault.remove(seal)?;
    Ok(bytes && alone && !is_there(vault, 7)?)
}

#[test]
fn a_vault_in_memory(rt: HostRuntime) -> Result<(), Fail> {
    let mut vault = MemoryVault::new(rt.alloc(), &[])?;
    let seal = seal_three(&mut vault)?;
    assert!(rt; is_held(rt.alloc(), &mut vault, seal)?);
    Ok(())
}

// A seal of three bytes that is held while another of them is removed.
fn held_after_a_removal(vault: &mut MemoryVault) -> Result<MemorySeal, Fail>
    requires { memory_held vault.old ≡ map.empty }
{
    vault.preset(9, b"abc")?;
    let held = vault.open(9)?.ok_or("no seal")?;
    let other = vault.open(9)?.ok_or("no seal")?;
    vault.remove(other)?;
    Ok(held)
}

// Whether an eye whose second call fails reads these three bytes.
fn reads_three(eye: &mut MemoryEye, seal: &MemorySeal) -> bool {
    if seal.bytes() != b"abc".as_slice() {
        return false;
    }
    let mut buf = [0; 2];
    let read = eye.read(seal, 1, &mut buf) == Ok(());
    read && buf == *b"bc" && eye.length(seal) == Err(Failed) && eye.length(seal) == Ok(3)
}

#[test]
fn a_seal_keeps_its_bytes(rt: HostRuntime) -> Result<(), Fail> {
    let mut vault = MemoryVault::new(rt.alloc(), &[])?;
    let mut eye = MemoryEye::new(rt.alloc(), &[2])?;
    cross(&vault, &eye);
    let held = held_after_a_removal(&mut vault)?;
    assert!(rt; reads_three(&mut eye, &held));
    Ok(())
}

// The first call and the fourth fail: a seal that is made to fail in an even call is done.
fn is_sealed_all_the_same(vault: &mut MemoryVault) -> Result<bool, Fail>
    requires { memory_held vault.old ≡ map.empty }
{
    let first = vault.create(6).is_err();
    let mut draft = vault.create(6)?;
    vault.write(&mut draft, b"ab")?;
    let fourth = vault.seal(draft).is_err();
    let seal = vault.open(6)?.ok_or("it is there")?;
    Ok(first && fourth && seal.bytes() == b"ab".as_slice())
}

#[test]
fn a_failing_seal(rt: HostRuntime) -> Result<(), Fail> {
    let mut vault = MemoryVault::new(rt.alloc(), &[1, 4])?;
    assert!(rt; is_sealed_all_the_same(&mut vault)?);
    Ok(())
}

// The first call and the third fail: a removal that is made to fail in an odd call isn't done, and a refused list stays.
fn stays(vault: &mut MemoryVault, list: &mut Vec<u64>) -> Result<bool, Fail>
    requires { memory_held vault.old ≡ map.empty }
{
    vault.preset(8, b"ab")?;
    let first = vault.numbers(list) == Err(NumbersRefused::Failed);
    let seal = vault.open(8)?.ok_or("it is there")?;
    let third = vault.remove(seal) == Err(Failed);
    Ok(first && third && list.as_slice() == [5].as_slice() && is_there(vault, 8)?)
}

#[test]
fn a_failing_removal(rt: HostRuntime) -> Result<(), Fail> {
    let mut vault = MemoryVault::new(rt.alloc(), &[1, 3])?;
    let mut list = vec![in rt.alloc(); 5]?;
    assert!(rt; stays(&mut vault, &mut list)?);
    Ok(())
}

const NUMBER: u64 = 7_000_001;

type Folder = FolderVault<HostRuntime>;

// Whether an eye reads the five bytes of a seal. A read beyond the end is a fault, and isn't counted as a read.
fn reads_five(eye: &mut FolderEye, seal: &FolderSeal) -> bool {
    let mut buf = [0; 4];
    let read = eye.read(seal, 1, &mut buf) == Ok(()) && buf == *b"ello";
    let beyond = eye.read(seal, 2, &mut buf) == Err(Failed)
        && eye.read(seal, u64::MAX, &mut buf) == Err(Failed);
    read && beyond && eye.faults() == 2 && eye.reads() == 1
}

// Whether a seal that was removed can't be removed again, which is the first fault.
fn is_gone(vault: &mut Folder, seal: FolderSeal) -> bool {
    vault.faults() == 0 && vault.remove(seal) == Err(Failed) && vault.faults() == 1
}

// Whether a seal is read and listed, and is gone but keeps its bytes once it was removed.
fn keeps(alloc: Global, vault: &mut Folder, eye: &mut FolderEye) -> Result<bool, Fail> {
    let seal = vault.open(NUMBER)?.ok_or("no seal")?;
    let read = reads_five(eye, &seal) && are_sealed(alloc, vault, &[NUMBER])?;
    let other = vault.open(NUMBER)?.ok_or("no seal")?;
    vault.remove(other)?;
    let mut buf = [0; 4];
    eye.read(&seal, 0, &mut buf)?;
    let kept = buf == *b"hell" && !is_there(vault, NUMBER)?;
    Ok(read && kept && is_gone(vault, seal))
}

#[test]
fn the_current_folder(rt: HostRuntime) -> Result<(), Fail> {
    let _ = fs::remove_file(&rt, "7000001.seg");
    let mut vault = FolderVault::new(rt);
    let mut eye = FolderEye::new();
    cross(&vault, &eye);
    let draft = vault.create(NUMBER)?;
    let sealed = sealed_length(&mut vault, &mut eye, draft, b"hello")? == 5;
    let kept = keeps(rt.alloc(), &mut vault, &mut eye)?;
    assert!(rt; sealed && kept && !fs::exists(&rt, "7000001.part")?);
    Ok(())
}

const FOLDERS: [&str; 3] = ["7000002.part", "7000003.seg", "07.seg"];

fn make_folders(rt: HostRuntime) -> Result<(), Fail> {
    for folder in FOLDERS {
        let _ = fs::remove_dir(&rt, folder);
        fs::create_dir(&rt, folder)?;
    }
    Ok(())
}

fn remove_folders(rt: HostRuntime) -> Result<(), Fail> {
    for folder in FOLDERS {
        fs::remove_dir(&rt, folder)?;
    }
    Ok(())
}

// Whether names that are taken are counted faults. A draft is sealed under no name that is a folder's.
fn counts_taken_names(vault: &mut Folder) -> Result<bool, Failed> {
    let two = vault.create(7_000_002).is_err() && vault.open(7_000_003).is_err();
    let counted = vault.faults() == 2;
    let draft = vault.create(7_000_003)?;
    Ok(two && counted && vault.seal(draft).is_err() && vault.faults() == 3)
}

#[test]
fn names_that_are_taken(rt: HostRuntime) -> Result<(), Fail> {
    make_folders(rt)?;
    let mut vault = FolderVault::new(rt);
    let counted = counts_taken_names(&mut vault)?;
    remove_folders(rt)?;
    fs::remove_file(&rt, "7000003.part")?;
    assert!(rt; counted);
    Ok(())
}
