ghost use Rattle.std.specs.Prelude.{◌≡◌, [], ℕ, None, IfOk, IfErr, IfSome};
ghost use Rattle.std.specs.Option.{ForSome};
ghost use Rattle.rg_dump.specs.Dump.{damage_of};
ghost use Rattle.rg_dump.specs.Leaves.{LeavesRead};
ghost use Rattle.rg_growth.specs.Growing.{AreDefaultsOf};
ghost use Rattle.rg_reservoir.specs.Kept.{base, opened};
ghost use Rattle.rg_verify.specs.Causes.{IsFirstDamage, IsOfOther, IsReadable, IsUnjudged};
ghost use Rattle.rg_verify.specs.Finding.{IsApart, IsFoundFor, IsFurther};

use crate::fault::{VerifyFault, walk_fault};
use rg_bytes::Memory;
use rg_event::{Room, Schema, Values};
use rg_growth::{Defaults, Growth};
use rg_host::Host;
use rg_reservoir::Reservoir;
use std::alloc::Global;

/// A log that was found by the heads of its chunks and by its growths.
#[derive(Drop)]
pub(crate) struct Found {
    /// None where it has no frame.
    pub(crate) log: Option<Reservoir>,
    /// What comes behind the values of each of its payments, where another schema than the plan's is in force at its
    /// end.
    pub(crate) further: Option<Values>,
}

/// What comes behind the values of each payment of a log to make it one of this schema: nothing where the log's is the
/// same, and else the defaults of the columns that it lacks. A log whose schema doesn't grow to this one by them is
/// told as another's.
fn further(
    alloc: Global,
    log: &Reservoir,
    schema: &Schema,
    defaults: &Defaults,
) -> Result<Option<Values>, VerifyFault>
    requires given { AreDefaultsOf schema.now.fields defaults.now }
    ensures is { IfOk result (IsFurther (base log.now).shape schema.now defaults.now) }
    ensures cause { (n : ℕ) → IfErr result (IsUnjudged (λ _. ⊥) (IsApart (base log.now).shape schema.now defaults.now) n n) }
{
    match log.is_of(alloc, schema) {
        Ok(true) => return Ok(None),
        Ok(false) => {}
        Err(Memory) => return Err(VerifyFault::Memory),
    }
    match Growth::filled(alloc, log.schema(), schema, defaults) {
        Ok(Some(growth)) => Ok(Some(growth.values)),
        Ok(None) => Err(VerifyFault::SchemaDiffers),
        Err(Memory) => Err(VerifyFault::Memory),
    }
}

/// The log of file 2 by the heads of its chunks and by its growths; none where it has no frame. It was walked to
/// its end, so a bad head comes only where the host told other bytes then.
pub(crate) fn find<H: Host>(
    alloc: Global,
    host: &mut H,
    schema: &Schema,
    defaults: &Defaults,
    room: Room,
) -> Result<Found, VerifyFault>
    requires room { IsReadable room }
    requires given { AreDefaultsOf schema.now.fields defaults.now }
    requires undamaged { ForSome (H.now host.old) (λ v. damage_of (v 2) ≡ None) }
    ensures empty { IfOk result (λ found. IfSome found.log (λ r. opened r ≡ [])) }
    ensures found { IfOk result (λ found. ForSome (H.now host.old) (λ v. IsFoundFor schema.now defaults.now found.further (v 2))) }
    ensures cause { IfErr result (IsUnjudged (IsFirstDamage (H.now host.old)) (IsOfOther schema.now defaults.now (H.now host.old)) (H.disk_faults host.old) (H.disk_faults host.new)) }
    ensures leaves { LeavesRead H.now H.may H.clock H.since H.said H.disk_faults H.out_faults host.old host.new }
{
    let log = match Reservoir::read(alloc, host, room) {
        Ok(Some(log)) => log,
        Ok(None) => {
            return Ok(Found {
                log: None,
                further: None,
            });
        }
        Err(fault) => return Err(walk_fault(fault)),
    };
    match further(alloc, &log, schema, defaults) {
        Ok(further) => Ok(Found {
            log: Some(log),
            further,
        }),
        Err(fault) => Err(fault),
    }
}
