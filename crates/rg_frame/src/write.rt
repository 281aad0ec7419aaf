ghost use Rattle.std.specs.Prelude.{◌≤◌, ◌<◌, ◌+◌, ◌^◌, length, OnOk, OnErr};
ghost use Rattle.std.specs.Option.{ForSome};
ghost use Rattle.rg_bytes.specs.Counts.{Rose};
ghost use Rattle.rg_host.specs.Image.{Becomes, InFile, Torn, NothingPending};
ghost use Rattle.rg_frame.specs.Calls.{MayAdd, HasStaged, HasOpened, HasAdded, HasClosed, WritesOne, WritesShut};
ghost use Rattle.rg_frame.specs.Steps.{Brief, Begun, Keeps, From, Grows};

use rg_host::{Failed, Host};

/// The first step of an append: gives a file of at most one byte a closed gate.
fn begin<H: Host>(host: &mut H, file: u32) -> Result<(), Failed>
    requires file { file < 8 }
    ensures begun { OnOk result (Becomes (H.now host.old) (H.now host.new) (InFile file Begun)) }
    ensures pending { OnOk result (NothingPending file (H.now host.old) (H.may host.old) → NothingPending file (H.now host.new) (H.may host.new)) }
    ensures wrote { WritesOne H.now H.may H.clock H.since H.said H.disk_faults H.out_faults H.reads file Brief host.old host.new }
    ensures cause { OnErr result (Rose (H.disk_faults host.old) (H.disk_faults host.new)) }
{
    if host.len(file)? > 1 {
        return Ok(());
    }
    host.write_at(file, 0, &[0])?;
    host.sync(file)?;
    Ok(())
}

/// The second step: writes a frame behind the gate at that place, and a closed gate behind it.
fn stage<H: Host>(host: &mut H, file: u32, end: u64, payload: &[u8]) -> Result<(), Failed>
    requires file { file < 8 }
    requires room { end ≤ 2 ^ 62 }
    requires within { ForSome (H.now host.old) (λ v. end + 1 ≤ length (v file)) }
    ensures staged { OnOk result (HasStaged H.now H.may file end payload.now host.old host.new) }
    ensures wrote { WritesOne H.now H.may H.clock H.since H.said H.disk_faults H.out_faults H.reads file (Keeps (end + 1)) host.old host.new }
    ensures cause { OnErr result (Rose (H.disk_faults host.old) (H.disk_faults host.new)) }
{
    let size = payload.len() as u64;
    host.write_at(file, end + 1, &size.to_be_bytes())?;
    host.write_at(file, end + 9, payload)?;
    host.write_at(file, end + 9 + size, &[0])?;
    host.sync(file)?;
    Ok(())
}

/// The last step: opens the gate at that place.
fn open_gate<H: Host>(host: &mut H, file: u32, end: u64) -> Result<(), Failed>
    requires file { file < 8 }
    requires within { ForSome (H.now host.old) (λ v. end ≤ length (v file)) }
    ensures opened { OnOk result (HasOpened H.now H.may file end host.old host.new) }
    ensures wrote { WritesOne H.now H.may H.clock H.since H.said H.disk_faults H.out_faults H.reads file (Torn end 1) host.old host.new }
    ensures cause { OnErr result (Rose (H.disk_faults host.old) (H.disk_faults host.new)) }
{
    host.write_at(file, end, &[1])?;
    host.sync(file)?;
    Ok(())
}

/// Adds a frame behind those that end at that place.
pub(crate) fn add<H: Host>(host: &mut H, file: u32, end: u64, payload: &[u8]) -> Result<(), Failed>
    requires { MayAdd (H.now host.old) file end }
    ensures added { OnOk result (HasAdded H.now H.may file end payload.now host.old host.new) }
    ensures wrote { WritesOne H.now H.may H.clock H.since H.said H.disk_faults H.out_faults H.reads file (From end (Grows payload.now)) host.old host.new }
    ensures cause { OnErr result (Rose (H.disk_faults host.old) (H.disk_faults host.new)) }
{
    begin(host, file)?;
    stage(host, file, end, payload)?;
    open_gate(host, file, end)?;
    Ok(())
}

/// Closes the gate at the head of a file, where it is open.
pub(crate) fn close<H: Host>(host: &mut H, file: u32) -> Result<(), Failed>
    requires { file < 8 }
    ensures closed { OnOk result (HasClosed H.now H.may file host.old host.new) }
    ensures wrote { WritesShut H.now H.may H.clock H.since H.said H.disk_faults H.out_faults H.reads file host.old host.new }
    ensures cause { OnErr result (Rose (H.disk_faults host.old) (H.disk_faults host.new)) }
{
    let mut gate = [0u8; 1];
    let n = host.read_at(file, 0, &mut gate)?;
    if n == 0 {
        return Ok(());
    }
    if gate[0] != 1 {
        return Ok(());
    }
    host.write_at(file, 0, &[0])?;
    host.sync(file)?;
    Ok(())
}
