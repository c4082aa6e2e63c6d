//! `srtgw check`: whether a configuration is right, and what is told of it.

ghost use Rattle.std.specs.Prelude.{◌≡◌, ◌≤◌, IfErr, OnOk, IsUtf8, Err, length};
ghost use Rattle.std.specs.Io.KnownBytes.{Appends};
ghost use Rattle.toml.specs.Parse.{parse_document};
ghost use Rattle.srt_config.specs.FirstFault.{Gives};
ghost use Rattle.srt_config.specs.Config.{settings_of, config_in};
ghost use Rattle.srt_offline.specs.Configurations.{routes_line, WarnsOfFile};
ghost use Rattle.srt_offline.specs.Ends.{IsConfigFault, IsCheckFault};

use crate::faults::OfflineFault;
use srt_config::{Config, ConfigFault, read_config, read_configuration};
use srt_explain::{Explained, FaultLines, Faults, explain};
use std::alloc::Global;
use std::fs::{Metadata, metadata};
use std::io::{self, Write};
use std::os::unix::fs::MetadataExt;
use std::rt::Files;
use std::str;

/// The configuration that these bytes are, or its first fault. Bytes that aren't UTF-8 aren't TOML.
fn config_in(alloc: Global, bytes: &[u8]) -> Result<Config, ConfigFault>
    ensures gives { IsUtf8 bytes.now → Gives settings_of result (config_in (parse_document bytes.now)) }
    ensures no_text { ¬ (IsUtf8 bytes.now) → result ≡ Err ConfigFault.Toml }
{
    match str::from_utf8(bytes) {
        Ok(text) => read_config(alloc, text),
        Err(_) => Err(ConfigFault::Toml),
    }
}

/// Reads a configuration's file, as [`read_configuration`] does. A file that isn't UTF-8 isn't TOML. Allocates the bytes, and the
/// configuration.
pub fn config_at(rt: &(impl Files + AllocGlobal), path: &str) -> Result<Config, OfflineFault>
    ensures { IfErr result IsConfigFault }
{
    let bytes = match read_configuration(rt, path) {
        Ok(bytes) => bytes,
        Err(unread) => return Err(OfflineFault::of_unread(&unread)),
    };
    match config_in(rt.alloc(), &bytes) {
        Ok(config) => Ok(config),
        Err(fault) => Err(OfflineFault::Config(fault)),
    }
}

/// Prints what is wrong with a configuration, a line for each fault, on standard error.
fn print_faults(rt: &impl Eprint, path: &str, faults: &Faults) {
    let _ = rt.eprint(FaultLines { path, faults });
}

/// A configuration's explanation from the bytes of its file. What is wrong is explained on standard error.
fn explained_in(
    rt: &(impl Eprint + AllocGlobal),
    path: &str,
    bytes: &[u8],
) -> Result<Explained, ConfigFault> {
    match explain(rt.alloc(), bytes) {
        Ok(explained) => Ok(explained),
        Err(faults) => {
            print_faults(rt, path, &faults);
            Err(faults.into_fault())
        }
    }
}

/// Adds the warning about the mode of a configuration's file, if the system told it.
fn warn_of_file(explained: &mut Explained, told: &io::Result<Metadata>) -> Result<(), OfflineFault>
    ensures fault { IfErr result IsConfigFault }
    ensures warnings { OnOk result (WarnsOfFile told.now explained.old explained.new) }
{
    match told {
        Ok(found) => match explained.warn_of_mode(found.mode()) {
            Ok(()) => Ok(()),
            Err(_) => Err(OfflineFault::Memory),
        },
        Err(_) => Ok(()),
    }
}

/// Reads a configuration's file, as [`config_at`] does, with what is unwise in it, the file's mode included. What is wrong is
/// explained on standard error.
pub fn explained_at(
    rt: &(impl Eprint + Files + AllocGlobal),
    path: &str,
) -> Result<Explained, OfflineFault>
    ensures { IfErr result IsConfigFault }
{
    let bytes = match read_configuration(rt, path) {
        Ok(bytes) => bytes,
        Err(unread) => {
            let why = &unread;
            let _ = eprintln!(rt; "srtgw: {path}: {why}");
            return Err(OfflineFault::of_unread(&unread));
        }
    };
    let mut explained = match explained_in(rt, path, &bytes) {
        Ok(explained) => explained,
        Err(fault) => return Err(OfflineFault::Config(fault)),
    };
    warn_of_file(&mut explained, &metadata(rt, path))?;
    Ok(explained)
}

/// Writes the number of routes in a configuration as one line.
#[tactic(auto, unfolding(crate::specs::Configurations::routes_line))]
pub fn write_routes<W: Write>(out: &mut W, config: &Config) -> io::Result<()>
    ensures { OnOk result (Appends (W.contents out.old) (W.contents out.new) (routes_line (length config.now.entries.items))) }
{
    let routes = config.entries.len();
    writeln!(out, "routes {routes}")
}

/// Prints the number of routes in a configuration. The only error is an output that can't be written.
pub fn print_routes(rt: &impl Print, config: &Config) -> Result<(), OfflineFault>
    ensures { IfErr result IsCheckFault }
{
    match write_routes(&mut io::writer(rt), config) {
        Ok(()) => Ok(()),
        Err(_) => Err(OfflineFault::Output),
    }
}

/// Prints what is unwise in a configuration, a line each, on standard error.
fn print_warnings(rt: &impl Eprint, path: &str, explained: &Explained) {
    for warning in explained.warnings.iter() {
        let text = explained.text_of(*warning);
        let _ = eprintln!(rt; "srtgw: {path}: {text}");
    }
}

/// Reads a configuration's file, as [`config_at`] does. If it `explains`, standard error gets what is wrong or unwise, a line each.
pub fn checked_at<R>(rt: &R, path: &str, explains: bool) -> Result<Config, OfflineFault>
where
    R: Eprint + Files + AllocGlobal,
    ensures { IfErr result IsConfigFault }
{
    if !explains {
        return config_at(rt, path);
    }
    let explained = explained_at(rt, path)?;
    print_warnings(rt, path, &explained);
    let Explained {
        config,
        warnings: _,
    } = explained;
    Ok(config)
}

/// `srtgw check CONFIG`: prints the number of routes in the configuration. If it `explains`, as with `--explain`, standard
/// error gets what is wrong or unwise, a line each. Allocates the file's bytes, and the configuration.
pub fn check_file<R>(rt: &R, path: &str, explains: bool) -> Result<(), OfflineFault>
where
    R: Print + Eprint + Files + AllocGlobal,
    ensures { IfErr result IsCheckFault }
{
    let config = checked_at(rt, path, explains)?;
    print_routes(rt, &config)
}
