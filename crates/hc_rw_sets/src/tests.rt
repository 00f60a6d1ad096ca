//! What rules ask of the texts that they make.
ghost use Rattle.std.specs.Prelude.{◌≡◌, IfOk, is_some};
ghost use Rattle.std.specs.List.{list_any};
ghost use Rattle.hc_base.specs.Bytes.{is_question};
ghost use Rattle.hc_base.specs.Paths.{begins_with_slash};
ghost use Rattle.hc_dfa.specs.Built.{Accepts};
ghost use Rattle.hc_rw_eval.specs.Locations.{has_scheme, own_path};
ghost use Rattle.hc_target.specs.Urls.{is_url};

use crate::locations::{own_urls, schemes, urls};
use crate::questions::{absolute, with_question};
use hc_base::NoMemory;
use hc_dfa::Dfa;
use hc_model::Caller;
use std::alloc::Global;
use std::marker::Model;

/// What rules ask of the texts that they make at a server: sets that are made once.
#[derive(Drop)]
pub struct TextTests {
    caller: Caller,
    question: Dfa,
    url: Dfa,
    own: Dfa,
    scheme: Dfa,
    absolute: Dfa,
}

impl Model for TextTests {
    ghost use Rattle.std.specs.Prelude.{is_some};
    ghost use Rattle.std.specs.List.{list_any};
    ghost use Rattle.hc_base.specs.Bytes.{is_question};
    ghost use Rattle.hc_base.specs.Paths.{begins_with_slash};
    ghost use Rattle.hc_dfa.specs.Built.{Accepts};
    ghost use Rattle.hc_model.specs.declared.request.Caller.{Caller};
    ghost use Rattle.hc_rw_eval.specs.Locations.{has_scheme, own_path};
    ghost use Rattle.hc_target.specs.Urls.{is_url};

    ghost Value = { Caller };

    ghost view = { λ tests. tests.caller };

    ghost invariant = { λ tests. Accepts tests.question (list_any is_question) × Accepts tests.url is_url
        × Accepts tests.own (λ text. is_some (own_path tests.caller text)) × Accepts tests.scheme has_scheme
        × Accepts tests.absolute begins_with_slash };
}

impl TextTests {
    pub fn new(alloc: Global, caller: Caller) -> Result<TextTests, NoMemory>
        ensures { IfOk result (λ tests. tests ≡ caller) }
    {
        let question = with_question(alloc)?;
        let url = urls(alloc)?;
        let own = own_urls(alloc, &caller)?;
        let scheme = schemes(alloc)?;
        let absolute = absolute(alloc)?;
        Ok(TextTests {
            caller,
            question,
            url,
            own,
            scheme,
            absolute,
        })
    }

    /// The server, as its requests have it in common.
    pub fn caller(&self) -> &Caller
        ensures { result.now ≡ self.now }
    {
        &self.caller
    }

    /// The texts with a `?`.
    pub fn question(&self) -> &Dfa
        ensures { Accepts result.now (list_any is_question) }
    {
        &self.question
    }

    /// `http://` and `https://` texts.
    pub fn url(&self) -> &Dfa
        ensures { Accepts result.now is_url }
    {
        &self.url
    }

    /// The URLs of the server's own.
    pub fn own(&self) -> &Dfa
        ensures { Accepts result.now (λ text. is_some (own_path self.now text)) }
    {
        &self.own
    }

    /// The texts with a scheme.
    pub fn scheme(&self) -> &Dfa
        ensures { Accepts result.now has_scheme }
    {
        &self.scheme
    }

    /// The texts that begin with a slash.
    pub fn absolute(&self) -> &Dfa
        ensures { Accepts result.now begins_with_slash }
    {
        &self.absolute
    }
}
