//! Lists every sheet of data/: its file's name, then what the program prints for it.
#![tactic(auto)]

use listing::input::read_full;
use listing::program::program;
use std::fs::File;
use std::io;
use std::io::Write;

// Sheet A and the worked cases.
const CASES: &[&str] = &[
    "sheet_a.sheet",
    "case_03.sheet",
    "case_04.sheet",
    "case_05.sheet",
    "case_06.sheet",
    "case_07_signed_1_0.sheet",
    "case_07_signed_0_1.sheet",
    "case_07_unsigned_1_0.sheet",
    "case_07_unsigned_0_1.sheet",
    "case_08_constant_7.sheet",
    "case_08_constant_8.sheet",
    "case_09.sheet",
    "case_10_width_4.sheet",
    "case_10_width_5.sheet",
    "case_11_by_3.sheet",
    "case_11_by_4.sheet",
    "case_12_128_bits.sheet",
    "case_12_129_bits.sheet",
];

// Rules for a mesh of ward controllers.
const MESH_RULES: &[&str] = &[
    "mesh_two_lead.sheet",
    "mesh_nobody_leads.sheet",
    "mesh_nobody_leads_addressed.sheet",
    "mesh_bonus_wraps.sheet",
    "mesh_bonus_wide.sheet",
    "mesh_delay.sheet",
    "mesh_health.sheet",
    "mesh_weighted.sheet",
];

// A file that can't be opened is listed as no bytes at all: answer 1.
fn list(rt: &HostRuntime, name: &str) -> io::Result<()> {
    let mut input = [0u8; 2563];
    let n = match File::open(rt, name) {
        Ok(mut file) => read_full(&mut file, &mut input)?,
        Err(_) => 0,
    };
    let page = program(&input[..n]);
    rt.stdout().write_all(name.as_bytes())?;
    rt.stdout().write_all(b"\n")?;
    rt.stdout().write_all(page.as_bytes())
}

fn main(rt: HostRuntime) -> io::Result<()> {
    for name in CASES {
        list(&rt, name)?;
    }
    for name in MESH_RULES {
        list(&rt, name)?;
    }
    Ok(())
}
