//! What names a port behind a server's name.
ghost use Rattle.std.specs.Prelude.{◌≡◌, ◌≤◌, IfOk};
ghost use Rattle.std.proofs.Common.{rules};
ghost use Rattle.hc_dfa.specs.Built.{Accepts};
ghost use Rattle.hc_rw_eval.specs.Locations.{is_port};
ghost use Rattle.hc_rw_sets.specs.Ports.{IsMark, behind_digit, leads_on, next_mark, number_mark, port_ends};

use hc_base::NoMemory;
use hc_dfa::{Dfa, Reading, tested};
use hc_model::Scheme;
use hc_template::default_port;
use std::alloc::Global;

const DECIMAL: u32 = 10;

/// A colon and the port, with zeros in front of it or none; nothing too where it is the scheme's default.
pub(crate) fn port_texts(alloc: Global, scheme: Scheme, port: u16) -> Result<Dfa, NoMemory>
    ensures { IfOk result (λ made. Accepts made (is_port scheme port)) }
{
    let made = tested(alloc, &PortReading { scheme, port }, Mark::Begin)?;
    Ok(made)
}

#[derive(Clone, Copy)]
struct PortReading {
    scheme: Scheme,
    port: u16,
}

/// How much was read.
#[derive(Clone, Copy, PartialEq, Eq, Hash, Drop)]
pub enum Mark {
    Begin,
    Colon,
    /// The number that the digits write so far, of which more may make the port.
    Number(u32),
    /// Another text.
    Other,
}

fn leads_on(port: u16, value: u32) -> bool
    ensures { result ≡ leads_on port value }
{
    let port = u32::from(port);
    let tens = port / DECIMAL;
    let hundreds = tens / DECIMAL;
    let thousands = hundreds / DECIMAL;
    let last = thousands / DECIMAL;
    [port, tens, hundreds, thousands, last, last / DECIMAL].contains(&value)
}

#[tactic(auto, using(crate::proofs::Numbered::led_within))]
fn number_mark(port: u16, value: u32) -> Mark
    ensures value { result ≡ number_mark port value }
    ensures mark { IsMark port result }
{
    if leads_on(port, value) {
        Mark::Number(value)
    } else {
        Mark::Other
    }
}

fn behind_digit(port: u16, value: u32, byte: u8) -> Mark
    requires { value ≤ port }
    ensures value { result ≡ behind_digit port value byte }
    ensures mark { IsMark port result }
{
    match char::from(byte).to_digit(DECIMAL) {
        Some(digit) => number_mark(port, value * DECIMAL + digit),
        None => Mark::Other,
    }
}

impl Reading for PortReading {
    type Key = Mark;

    ghost is_key = { λ reading. IsMark reading.port };

    ghost reads = { λ reading. next_mark reading.port };

    ghost holds = { λ reading. port_ends reading.scheme reading.port };

    fn next(&self, mark: Mark, byte: u8) -> Mark {
        match (mark, byte) {
            (Mark::Begin, b':') => Mark::Colon,
            (Mark::Colon, _) => behind_digit(self.port, 0, byte),
            (Mark::Number(value), _) => behind_digit(self.port, value, byte),
            _ => Mark::Other,
        }
    }

    fn holds(&self, mark: Mark) -> bool {
        match mark {
            Mark::Begin => self.port == default_port(self.scheme),
            Mark::Number(value) => value == u32::from(self.port),
            Mark::Colon | Mark::Other => false,
        }
    }

    ghost same = { Prim.search rules };
}
