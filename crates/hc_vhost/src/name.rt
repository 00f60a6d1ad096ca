ghost use Rattle.std.specs.Prelude.{◌≡◌, ◌==◌, [], ◌∷◌, false};
ghost use Rattle.hc_base.specs.Bytes.{star};
ghost use Rattle.hc_vhost.specs.Names.{any_bytes, fits, stands_for};
ghost use Rattle.hc_vhost.specs.NamesView.{FrontBy, StepBy};

/// What stands before the first `*` of an alias, tried at the front of a name.
#[derive(Clone, Copy)]
pub(crate) enum Front<'n> {
    /// Both have ended.
    Ends,
    Fails,
    /// What follows the `*`, and what is left of the name.
    Stars(&'n [u8], &'n [u8]),
}

/// The first byte of an alias, tried at the front of a name.
#[derive(Clone, Copy)]
pub(crate) enum Step<'n> {
    Stops(Front<'n>),
    /// It stands for the first byte of the name: what follows both.
    Byte(&'n [u8], &'n [u8]),
}

/// The alias stands for the name, without case: `*` for any bytes and `?` for one (Apache manual,
/// core, ServerAlias). It takes at most as many steps as the alias has bytes for each byte of the name.
pub(crate) fn fits(alias: &[u8], name: &[u8]) -> bool
    ensures { result ≡ fits alias.now name.now }
{
    match front_of(alias, name) {
        Front::Ends => true,
        Front::Fails => false,
        Front::Stars(alias, name) => fits_some_end(alias, name),
    }
}

// The alias stands for the name without some bytes at its front. Where what stands before a `*` fits
// first is as good as any later place: the `*` takes what lies between.
fn fits_some_end(alias: &[u8], name: &[u8]) -> bool
    ensures { result ≡ any_bytes (fits alias.now) name.now }
{
    let mut alias = alias;
    let mut name = name;
    loop {
        match front_of(alias, name) {
            Front::Ends => return true,
            Front::Stars(behind, rest) => {
                alias = behind;
                name = rest;
            }
            Front::Fails => match name.split_first() {
                Some((_, rest)) => name = rest,
                None => return false,
            },
        }
    }
}

#[tactic(auto, using(crate::proofs::Fitting::leading))]
fn front_of<'n>(alias: &'n [u8], name: &'n [u8]) -> Front<'n>
    ensures { FrontBy alias.now name.now result }
{
    let mut alias = alias;
    let mut name = name;
    loop {
        match step_of(alias, name) {
            Step::Stops(front) => return front,
            Step::Byte(behind, rest) => {
                alias = behind;
                name = rest;
            }
        }
    }
}

#[tactic(auto, using(crate::proofs::Fitting::star_front))]
fn step_of<'n>(alias: &'n [u8], name: &'n [u8]) -> Step<'n>
    ensures { StepBy alias.now name.now result }
{
    let Some((byte, behind)) = alias.split_first() else {
        return Step::Stops(end_of(name));
    };
    if *byte == b'*' {
        return Step::Stops(Front::Stars(behind, name));
    }
    byte_step(*byte, behind, name)
}

fn end_of<'n>(name: &[u8]) -> Front<'n>
    ensures { FrontBy [] name.now result }
{
    if name.is_empty() {
        Front::Ends
    } else {
        Front::Fails
    }
}

#[tactic(auto, using(crate::proofs::Fitting::leads_byte))]
fn byte_step<'n>(byte: u8, behind: &'n [u8], name: &'n [u8]) -> Step<'n>
    requires { (byte == star) ≡ false }
    ensures { StepBy (byte ∷ behind.now) name.now result }
{
    match name.split_first() {
        Some((other, rest)) if stands_for(byte, *other) => Step::Byte(behind, rest),
        _ => Step::Stops(Front::Fails),
    }
}

fn stands_for(byte: u8, other: u8) -> bool
    ensures { result ≡ stands_for byte other }
{
    byte == b'?' || byte.eq_ignore_ascii_case(&other)
}
