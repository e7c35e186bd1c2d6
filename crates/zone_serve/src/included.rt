//! Zone files that include others (RFC 1035 section 5.1).

ghost use Rattle.std.specs.Prelude.{◌≡◌, ◌≢◌, ◌↔◌, [], IfOk};
ghost use Rattle.served_zones.specs.ServedZones.{IsZoneOfFiles, loaded};
ghost use Rattle.served_zones.specs.declared.zone_files.ZoneFault.TheVariants.{Memory as NoMemory};
ghost use Rattle.server.specs.declared.settings.SettingFault.TheVariants.{Zone as OfZone};
ghost use Rattle.zone_serve.specs.Catalogs.{IsZoneAt};
ghost use Rattle.zone_serve.specs.declared.fault.FileFault.TheVariants as told;

use crate::fault::FileFault;
use hickory_server::proto::Name;
use hickory_server::zone_text::FileOpener;
use served_zones::zone_files::{RefusedFile, ZoneFault, zone_with_files};
use server::settings::SettingFault;
use sqlite_disk::Disk;
use std::alloc::Global;
use std::str;
use tsig::TsigVerifier;
use zones::Zone;

/// The fault for which a zone file, or a file that it includes, is refused. One of an included file is reported on the
/// standard error, by the name of that file.
fn fault_of_refused<R: Eprint>(rt: &R, refused: &RefusedFile) -> FileFault
    ensures memory { result ≡ told.Memory ↔ refused.now.fault ≡ NoMemory }
    ensures own { refused.now.file ≡ [] → refused.now.fault ≢ NoMemory → result ≡ told.Setting (OfZone refused.now.fault) }
{
    match (refused.fault, str::from_utf8(refused.file.as_slice())) {
        (ZoneFault::Memory, _) => FileFault::Memory,
        (fault, Ok(name)) if !name.is_empty() => {
            let _ = eprintln!(rt; "zone_serve: {name}:{fault}");
            FileFault::Included
        }
        (fault, _) => FileFault::Setting(SettingFault::Zone(fault)),
    }
}

/// The zone of this apex that the bytes of a zone file have with the files that it includes. A fault in one of these is
/// reported on the standard error.
fn zone_with<R: Eprint + Alloc<A = Global>, O: FileOpener, D: Disk + Drop>(
    rt: &R,
    apex: &Name,
    bytes: &[u8],
    files: &O,
) -> Result<Zone<TsigVerifier, D>, FileFault>
    ensures zone { IfOk result (λ it. it ≡ loaded it.updatable.zone) }
    ensures read { IfOk result
        (λ it. IsZoneOfFiles (O.opens files.now) bytes.now apex.now it.updatable.zone) }
{
    match zone_with_files(rt.alloc(), apex, bytes, files) {
        Ok(zone) => Ok(zone),
        Err(refused) => Err(fault_of_refused(rt, &refused)),
    }
}

/// The zone of this apex that the file of this name has with the files that it includes. A fault in one of these is
/// reported on the standard error.
pub fn zone_of<R: Eprint + Alloc<A = Global>, O: FileOpener, D: Disk + Drop>(
    rt: &R,
    files: &O,
    apex: &Name,
    file: &str,
) -> Result<Zone<TsigVerifier, D>, FileFault>
    ensures zone { IfOk result (λ it. it ≡ loaded it.updatable.zone) }
    ensures read { IfOk result (λ it. IsZoneAt (O.opens files.now) file.now apex.now it.updatable.zone) }
{
    let bytes = files.open(rt.alloc(), file.as_bytes())?;
    zone_with(rt, apex, &bytes, files)
}
