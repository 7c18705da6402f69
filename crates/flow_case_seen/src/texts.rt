//! The texts of cases, read once for all cases that share them.
ghost use Rattle.std.specs.Prelude.{◌≡◌, [], IfOk, IfErr};
ghost use Rattle.std.specs.Option.{option_map, unwrap_or};
ghost use Rattle.flow_text.specs.Parser.{bytes_now};
ghost use Rattle.flow_trail.specs.Due.{first_end};
ghost use Rattle.flow_case_begin.specs.Stops.{IsNoCaseOf};
ghost use Rattle.flow_case_seen.specs.Texts.{bytes_in, count_of, start_of};

use flow_case::Users;
use flow_case_begin::{Begun, CaseStop, CaseTexts, begin};
use flow_form::Script;
use flow_trail::{TrailEnd, first_seal};
use std::alloc::Global;
use std::marker::Model;

/// The texts that cases share. A clause sees the two texts, and the users whom the policy names.
#[derive(Drop)]
pub struct SharedTexts {
    workflow: Vec<u8>,
    policy: Option<Vec<u8>>,
    script: Script,
    /// None where there is no policy.
    users: Option<Users>,
    /// Where the trail of such a case begins.
    start: TrailEnd,
}

impl Model for SharedTexts {
    ghost use Rattle.flow_form.specs.Script.{said};
    ghost use Rattle.flow_case_seen.specs.Texts.{Shared, shared_code, bytes_in, AreRead};

    ghost Value = { Shared };

    ghost coded = { shared_code };

    ghost view = { λ t. record { workflow = t.workflow.items; policy = bytes_in t.policy; users = t.users } };

    ghost invariant = { λ t. AreRead (record { workflow = t.workflow.items; policy = bytes_in t.policy; users = t.users }) (said t.script) t.start };
}

/// The bytes, lent.
fn lent(bytes: &Option<Vec<u8>>) -> Option<&[u8]>
    ensures { option_map bytes_now result ≡ bytes_in bytes.now }
{
    match bytes {
        Some(bytes) => Some(bytes.as_slice()),
        None => None,
    }
}

/// Where the trail of a case of these texts begins.
fn trail_start(workflow: &[u8], policy: Option<&[u8]>) -> TrailEnd
    ensures { result ≡ first_end workflow.now (unwrap_or (option_map bytes_now policy.entry) []) }
{
    match policy {
        Some(policy) => TrailEnd::start(first_seal(workflow, policy)),
        None => TrailEnd::start(first_seal(workflow, &[])),
    }
}

/// Reads the texts of cases. They are refused as those of one case are.
#[tactic(auto, using(crate::proofs::TextLemmas::are_read, crate::proofs::TextLemmas::none_read))]
pub fn read_texts(
    alloc: Global,
    workflow: Vec<u8>,
    policy: Option<Vec<u8>>,
) -> Result<SharedTexts, CaseStop>
    ensures workflow { IfOk result (λ texts. texts.workflow ≡ workflow.items) }
    ensures policy { IfOk result (λ texts. texts.policy ≡ bytes_in policy) }
    ensures refused { IfErr result (IsNoCaseOf workflow.items (bytes_in policy)) }
{
    let texts = CaseTexts {
        workflow: &workflow,
        policy: lent(&policy),
    };
    match begin(alloc, texts) {
        Ok(Begun { script, run, users }) => {
            drop(run);
            let start = trail_start(&workflow, lent(&policy));
            Ok(SharedTexts {
                workflow,
                policy,
                script,
                users,
                start,
            })
        }
        Err(stop) => {
            drop(workflow);
            drop(policy);
            Err(stop)
        }
    }
}

impl SharedTexts {
    ghost use Rattle.flow_form.specs.Script.{said};
    ghost use Rattle.flow_form.specs.Names.{IsClosed};
    ghost use Rattle.flow_text.specs.Saying.{Says};

    /// The text of the workflow.
    pub fn workflow(&self) -> &[u8]
        ensures { result.now ≡ self.now.workflow }
    {
        &self.workflow
    }

    /// The text of the policy, if there is one.
    pub fn policy(&self) -> Option<&[u8]>
        ensures { option_map bytes_now result ≡ self.now.policy }
    {
        lent(&self.policy)
    }

    /// What the text of the workflow says.
    pub fn script(&self) -> &Script
        ensures says { Says self.now.workflow (said result.now) }
        ensures closed { IsClosed (said result.now) }
    {
        &self.script
    }

    /// The users of the policy by their numbers, if there is one.
    pub fn users(&self) -> Option<&Users>
        ensures { option_map (λ u. u.now) result ≡ self.now.users }
    {
        self.users.as_ref()
    }

    /// How many users the policy names.
    pub fn count(&self) -> u32
        ensures { result ≡ count_of self.now.users }
    {
        match &self.users {
            Some(users) => users.count(),
            None => 0,
        }
    }

    /// Where the trail of a case of these texts begins.
    pub fn start(&self) -> TrailEnd
        ensures { result ≡ start_of self.now }
    {
        self.start
    }
}
