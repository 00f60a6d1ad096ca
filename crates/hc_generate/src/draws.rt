ghost use Rattle.std.specs.Prelude.{◌≡◌, ◌<◌};
ghost use Rattle.hc_generate.specs.Draws.{draw};
ghost use Rattle.hc_generate.specs.Script.{ask_step, edit_step, file_step, override_step, turn};

use crate::step::{Leaf, Step};

/// The factor between a number and the next.
pub const MULTIPLIER: u64 = 6_364_136_223_846_793_005;

/// What is added to the product.
pub const INCREMENT: u64 = 1_442_695_040_888_963_407;

/// How many directories a script speaks of.
pub const DIRECTORIES: u64 = 50;

/// How many files it lists.
pub const FILES: u64 = 200;

/// How many texts a directory may have.
pub const TEXTS: u64 = 3;

/// How many names a file is asked by.
pub const LEAVES: u64 = 2;

/// One turn of so many is an edit.
pub const KINDS: u64 = 10;

/// How many turns follow the files.
pub const TURNS: u64 = 2000;

/// Numbers that are drawn from a seed.
#[derive(Drop)]
pub struct Draws {
    x: u64,
}

impl Draws {
    /// The numbers that this seed gives.
    pub fn new(seed: u64) -> Draws
        ensures { result.x ≡ seed }
    {
        Draws { x: seed }
    }

    // A number below n.
    fn draw(&mut self, n: u64) -> u64
        requires { 0 < n }
        ensures { (result, self.new.x) ≡ draw n self.old.x }
    {
        self.x = self.x.wrapping_mul(MULTIPLIER).wrapping_add(INCREMENT);
        (self.x >> 33) % n
    }

    /// The step that lists this file.
    pub fn file(&mut self, file: u64) -> Step
        ensures { (result, self.new.x) ≡ file_step file self.old.x }
    {
        Step::File {
            directory: self.draw(DIRECTORIES),
            file,
        }
    }

    /// The step that gives this directory a text.
    pub fn text(&mut self, directory: u64) -> Step
        ensures { (result, self.new.x) ≡ override_step directory self.old.x }
    {
        Step::Override {
            directory,
            text: self.draw(TEXTS),
        }
    }

    /// The step of a turn: an edit, or mostly an ask.
    pub fn turn(&mut self) -> Step
        ensures { (result, self.new.x) ≡ turn self.old.x }
    {
        if self.draw(KINDS) == 0 {
            self.edit()
        } else {
            self.ask()
        }
    }

    fn edit(&mut self) -> Step
        ensures { (result, self.new.x) ≡ edit_step self.old.x }
    {
        let directory = self.draw(DIRECTORIES);
        self.text(directory)
    }

    fn ask(&mut self) -> Step
        ensures { (result, self.new.x) ≡ ask_step self.old.x }
    {
        let directory = self.draw(DIRECTORIES);
        let leaf = if self.draw(LEAVES) == 0 {
            Leaf::Listed
        } else {
            Leaf::Rewritten
        };
        let file = self.draw(FILES);
        Step::Ask {
            directory,
            leaf,
            file,
        }
    }
}
