ghost use Rattle.std.specs.Prelude.{◌≡◌, IfOk};

use hc_base::{Boxed, List, NoMemory, Text};

/// A set of texts, as it is written.
#[derive(Drop)]
pub enum SetForm {
    /// Every text.
    Any,
    /// This text alone.
    Literal(Text),
    /// The texts in which a pattern is found.
    Pattern(Text),
    /// The texts of all of these sets.
    And(List<SetForm>),
    /// The texts of any of these sets.
    Or(List<SetForm>),
    /// The texts of the first set that are not in the second.
    Minus(Boxed<SetForm>, Boxed<SetForm>),
}

impl Clone for SetForm {
    ghost is_clone = { λ form copy. copy ≡ form };

    fn clone(&self) -> Result<SetForm, NoMemory> {
        copy_form(self)
    }
}

#[cycle(copy)]
fn copy_form(form: &SetForm) -> Result<SetForm, NoMemory>
    ensures { IfOk result (λ copy. copy ≡ form.now) }
{
    match form {
        SetForm::Any => Ok(SetForm::Any),
        SetForm::Literal(text) => Ok(SetForm::Literal(text.clone()?)),
        SetForm::Pattern(text) => Ok(SetForm::Pattern(text.clone()?)),
        SetForm::And(forms) => Ok(SetForm::And(copy_forms(forms)?)),
        SetForm::Or(forms) => Ok(SetForm::Or(copy_forms(forms)?)),
        SetForm::Minus(first, second) => {
            Ok(SetForm::Minus(copy_boxed(first)?, copy_boxed(second)?))
        }
    }
}

#[cycle(copy)]
fn copy_forms(forms: &List<SetForm>) -> Result<List<SetForm>, NoMemory>
    ensures { IfOk result (λ copy. copy ≡ forms.now) }
{
    let mut copy = List::new(forms.allocator());
    for form in forms.as_slice() {
        copy.push(copy_form(form)?)?;
    }
    Ok(copy)
}

#[cycle(copy)]
fn copy_boxed(form: &Boxed<SetForm>) -> Result<Boxed<SetForm>, NoMemory>
    ensures { IfOk result (λ copy. copy ≡ form.now) }
{
    let inner = copy_form(form.get())?;
    Boxed::new(form.allocator(), inner)
}
