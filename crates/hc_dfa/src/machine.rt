ghost use Rattle.std.specs.Prelude.{◌≡◌, ℕ, ◌↔◌, ◌⊎◌, true, Some, IfSome, OnOk};
ghost use Rattle.hc_dfa.specs.Machines.{AddsStep, Grows, IsOneStep, Reads};

use hc_base::NoMemory;

/// The bytes from the low to the high one.
#[derive(Clone, Copy, Drop)]
pub struct Bytes {
    pub low: u8,
    pub high: u8,
}

impl Bytes {
    /// These bytes and the one behind them.
    fn with(self, byte: u8) -> Option<Bytes>
        ensures { IfSome result (λ more. (b : ℕ) → Reads (Some more) (Some b)
            ↔ (Reads (Some self) (Some b) ⊎ (b ≡ byte))) }
    {
        if self.low <= byte && u16::from(self.high) + 1 == u16::from(byte) {
            return Some(Bytes { high: byte, ..self });
        }
        None
    }
}

/// A step to a state, past one of some bytes or past none.
#[derive(Clone, Copy, Drop)]
pub struct Step {
    pub bytes: Option<Bytes>,
    pub to: u32,
}

impl Step {
    fn by(byte: Option<u8>, to: u32) -> Step
        ensures { IsOneStep result byte to }
    {
        match byte {
            None => Step { bytes: None, to },
            Some(byte) => Step {
                bytes: Some(Bytes {
                    low: byte,
                    high: byte,
                }),
                to,
            },
        }
    }

    /// Whether the step is one past this byte, or past none.
    pub fn reads(&self, byte: Option<u8>) -> bool
        ensures { result ≡ true ↔ Reads self.now.bytes byte }
    {
        match self.bytes {
            None => byte.is_none(),
            Some(bytes) => match byte {
                None => false,
                Some(byte) => bytes.low <= byte && byte <= bytes.high,
            },
        }
    }

    /// The step that leads as this one and past the byte, too.
    fn with(self, byte: Option<u8>, to: u32) -> Option<Step>
        ensures { IfSome result (Grows self byte to) }
    {
        if self.to != to {
            return None;
        }
        match self.bytes {
            None => match byte {
                None => Some(self),
                Some(_) => None,
            },
            Some(bytes) => {
                let more = bytes.with(byte?)?;
                Some(Step {
                    bytes: Some(more),
                    to,
                })
            }
        }
    }
}

/// Adds a step past a byte or past none. One that goes on where the last step ends becomes a part of it.
pub fn add_step(steps: &mut Vec<Step>, byte: Option<u8>, to: u32) -> Result<(), NoMemory>
    ensures { OnOk result (AddsStep steps.old.items steps.new.items byte to) }
{
    let Some(last) = steps.pop() else {
        steps.push(Step::by(byte, to))?;
        return Ok(());
    };
    let Some(more) = last.with(byte, to) else {
        steps.push(last)?;
        steps.push(Step::by(byte, to))?;
        return Ok(());
    };
    steps.push(more)?;
    Ok(())
}

/// For each state its steps, which may lead to many, and whether it is final. It stands for the texts that some path
/// from state 0 to a final state reads.
#[derive(Drop)]
pub struct Machine {
    pub steps: Vec<Vec<Step>>,
    pub finals: Vec<bool>,
}
