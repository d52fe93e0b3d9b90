ghost use Rattle.std.specs.Prelude.{◌≡◌, ◌<◌, ◌==◌, find, IfOk};
ghost use Rattle.un_conds.specs.Conditions.{has_bit, tests, holds};
ghost use Rattle.un_conds.specs.Sizes.{HasSmallNumbers};
ghost use Rattle.un_conds.specs.Forms.{plain};

use crate::op::Op;
use std::alloc::{AllocError, Global};

/// A condition's form, with attributes and categories by their numbers.
#[derive(Drop)]
pub enum Form {
    Has(u8),
    Test(Op, u8, i64),
    And(Box<Form>, Box<Form>),
    Or(Box<Form>, Box<Form>),
    Not(Box<Form>),
}

fn has(category: u8, cats: u32) -> bool
    requires { category < 32 }
    ensures { result ≡ has_bit cats category }
{
    (cats >> category) % 2 == 1
}

fn pair_of(attribute: u8, attrs: &[(u8, i64)]) -> Option<(u8, i64)>
    ensures { result ≡ find (λ pair. pair.0 == attribute) attrs.now }
{
    attrs.iter().find(|pair| pair.0 == attribute).copied()
}

fn tests(op: Op, attribute: u8, number: i64, attrs: &[(u8, i64)]) -> bool
    ensures { result ≡ tests op attrs.now attribute number }
{
    match pair_of(attribute, attrs) {
        Some(pair) => op.compares(pair.1, number),
        None => false,
    }
}

/// Calls itself once for each level of the form.
pub(crate) fn form_holds(form: &Form, attrs: &[(u8, i64)], cats: u32) -> bool
    requires { HasSmallNumbers (plain form.now) }
    ensures { result ≡ holds (plain form.now) attrs.now cats }
{
    match form {
        Form::Has(category) => has(*category, cats),
        Form::Test(op, attribute, number) => tests(*op, *attribute, *number, attrs),
        Form::And(first, second) => form_holds(first, attrs, cats)
            && form_holds(second, attrs, cats),
        Form::Or(first, second) => form_holds(first, attrs, cats)
            || form_holds(second, attrs, cats),
        Form::Not(inner) => !form_holds(inner, attrs, cats),
    }
}

/// An equal form. Calls itself once for each level of the form.
pub(crate) fn copy_form(alloc: Global, form: &Form) -> Result<Form, AllocError>
    ensures { IfOk result (λ same. plain same ≡ plain form.now) }
{
    match form {
        Form::Has(category) => Ok(Form::Has(*category)),
        Form::Test(op, attribute, number) => Ok(Form::Test(*op, *attribute, *number)),
        Form::And(first, second) => {
            let first = Box::new(alloc, copy_form(alloc, first)?)?;
            let second = Box::new(alloc, copy_form(alloc, second)?)?;
            Ok(Form::And(first, second))
        }
        Form::Or(first, second) => {
            let first = Box::new(alloc, copy_form(alloc, first)?)?;
            let second = Box::new(alloc, copy_form(alloc, second)?)?;
            Ok(Form::Or(first, second))
        }
        Form::Not(inner) => {
            let inner = Box::new(alloc, copy_form(alloc, inner)?)?;
            Ok(Form::Not(inner))
        }
    }
}
