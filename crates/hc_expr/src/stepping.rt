//! What the steps of an expression are read as.
ghost use Rattle.std.specs.Prelude.{◌≡◌, IfOk, OnOk};
ghost use Rattle.hc_base.specs.Gives.{Gives};
ghost use Rattle.hc_expr.specs.Reading.{made_of_two, network_of, operand_of};
ghost use Rattle.hc_expr.specs.StepViews.{emitted, reading_of, step_view};
ghost use Rattle.hc_expr.specs.Steps.{constant_step, is_negated, refused_by, step_read, stepped, steps_read};
ghost use Rattle.hc_expr.specs.Steps.{trees_read, with_read, with_test};
ghost use Rattle.hc_expr.specs.TokenViews.{operand_view, test_view};
ghost use Rattle.hc_model.specs.declared.expression.ExprStep.TheVariants as kind;
ghost use Rattle.hc_pattern.specs.Reading.{parse_pattern};

use crate::operand::Operand;
use crate::parts::{network_of, operand_of, regex_of};
use crate::read::{ExprFault, both, lesser};
use crate::step::Step;
use crate::test::{Pattern, Test};
use hc_base::{AtByte, Fault, List, NoMemory};
use hc_model::{ExprStep, Expression};
use std::alloc::Global;

/// The steps that are read so far, and what refuses one of them.
#[derive(Drop)]
pub struct StepsRead {
    pub steps: List<ExprStep>,
    pub refusal: Option<AtByte>,
}

fn same_read(alloc: Global, left: Operand, right: Operand) -> Result<ExprStep, ExprFault>
    ensures { Gives result (made_of_two kind.Same
        (operand_of (operand_view left.entry)) (operand_of (operand_view right.entry))) }
{
    match both::<_, _, ExprStep>(operand_of(alloc, left), operand_of(alloc, right)) {
        Ok((left, right)) => Ok(ExprStep::Same(left, right)),
        Err(fault) => Err(fault),
    }
}

fn search_read(alloc: Global, left: Operand, pattern: Pattern) -> Result<ExprStep, ExprFault>
    ensures { Gives result (made_of_two kind.Search
        (operand_of (operand_view left.entry)) (parse_pattern pattern.entry.text.now pattern.entry.nocase)) }
{
    match both::<_, _, ExprStep>(operand_of(alloc, left), regex_of(alloc, pattern)) {
        Ok((left, regex)) => Ok(ExprStep::Search(left, regex)),
        Err(fault) => Err(fault),
    }
}

fn network_read(alloc: Global, left: Operand, network: &[u8]) -> Result<ExprStep, ExprFault>
    ensures { Gives result (made_of_two kind.IpMatch
        (operand_of (operand_view left.entry)) (network_of network.now)) }
{
    match both::<_, _, ExprStep>(operand_of(alloc, left), network_of(network)) {
        Ok((left, net)) => Ok(ExprStep::IpMatch(left, net)),
        Err(fault) => Err(fault),
    }
}

fn constant_step(value: bool) -> ExprStep
    ensures { result ≡ constant_step value }
{
    if value { ExprStep::Yes } else { ExprStep::No }
}

// A test, before what negates it.
fn step_read(alloc: Global, test: Test) -> Result<ExprStep, ExprFault>
    ensures { Gives result (step_read (test_view test.entry)) }
{
    match test {
        Test::Always(value) => Ok(constant_step(value)),
        Test::Same(_, left, right) => same_read(alloc, left, right),
        Test::Search(_, left, pattern) => search_read(alloc, left, pattern),
        Test::Network(left, network) => network_read(alloc, left, network),
    }
}

fn is_negated(test: Test) -> bool
    ensures { result ≡ is_negated (test_view test.entry) }
{
    match test {
        Test::Same(negated, _, _) => negated,
        Test::Search(negated, _, _) => negated,
        Test::Always(_) | Test::Network(_, _) => false,
    }
}

impl StepsRead {
    #[tactic(auto, using(crate::proofs::StepsOfTrees::trees_more))]
    fn push(&mut self, step: ExprStep) -> Result<(), NoMemory>
        ensures { OnOk result (reading_of self.new ≡ stepped step (reading_of self.old)) }
    {
        self.steps.push(step)?;
        Ok(())
    }

    // What refuses a test stands before what refuses those behind it.
    fn refuse(&mut self, broken: AtByte)
        ensures { reading_of self.new ≡ refused_by broken (reading_of self.old) }
    {
        let first = match self.refusal {
            Some(later) => lesser(broken, later),
            None => broken,
        };
        self.refusal = Some(first);
    }

    fn with_test(&mut self, alloc: Global, test: Test) -> Result<(), NoMemory>
        ensures { OnOk result (reading_of self.new ≡ with_test
            (is_negated (test_view test.entry)) (step_read (test_view test.entry)) (reading_of self.old)) }
    {
        match step_read(alloc, test) {
            Ok(step) => {
                self.push(step)?;
                if is_negated(test) {
                    self.push(ExprStep::Not)?;
                }
                Ok(())
            }
            Err(Fault::NoMemory) => Err(NoMemory),
            Err(Fault::Refused(broken)) => {
                self.refuse(broken);
                Ok(())
            }
        }
    }

    fn with_step(&mut self, alloc: Global, step: Step) -> Result<(), NoMemory>
        ensures { OnOk result (reading_of self.new ≡ with_read (step_view step.entry) (reading_of self.old)) }
    {
        match step {
            Step::Test(test) => self.with_test(alloc, test),
            Step::Not => self.push(ExprStep::Not),
            Step::And => self.push(ExprStep::And),
            Step::Or => self.push(ExprStep::Or),
        }
    }
}

fn read_all(alloc: Global, steps: &[Step]) -> Result<StepsRead, NoMemory>
    ensures { IfOk result (λ read. reading_of read ≡ trees_read (emitted steps.now)) }
{
    let mut read = StepsRead {
        steps: List::new(alloc),
        refusal: None,
    };
    for step in steps {
        read.with_step(alloc, *step)?;
    }
    Ok(read)
}

/// The expression of some steps, or the smallest refusal of their tests, and of equal ones the last.
pub fn steps_read(alloc: Global, steps: &[Step]) -> Result<Expression, ExprFault>
    ensures { Gives result (steps_read (emitted steps.now)) }
{
    let read = read_all(alloc, steps)?;
    match read.refusal {
        Some(broken) => Err(Fault::Refused(broken)),
        None => Ok(Expression::from(read.steps)),
    }
}
