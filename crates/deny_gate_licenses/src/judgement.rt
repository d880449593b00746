//! The judgement of a crate that counts.
ghost use Rattle.std.specs.Prelude.{◌≡◌, IfOk, Some};
ghost use Rattle.deny_spec_report.specs.Licences.{is_passed_over, licence_text};
ghost use Rattle.deny_krates.specs.Crates.{crate_view};
ghost use Rattle.deny_spdx.specs.Reads.{reading_in};
ghost use Rattle.deny_cfg.specs.LicensingView.{licensing_view};
ghost use Rattle.deny_gate_licenses.specs.private.Judgements.{code_of, granters_in, judgement_of};
ghost use Rattle.deny_gate_licenses.specs.private.Judgements.{of_expression, of_reading, unread_of};

use crate::answers::answers_to;
use crate::granter::Granter;
use crate::granting::Granting;
use deny_base::LicenseCode;
use deny_base_lists::{List, NoMemory, Text};
use deny_cfg::licenses::ValidConfig;
use deny_krates::Krate;
use deny_spdx::{Expression, SpdxError};
use std::alloc::Global;

/// The judgement of a crate that counts.
#[derive(Drop)]
pub enum Judgement {
    /// It is private, and private crates are skipped.
    Private,
    /// It names no licence.
    Unlicensed,
    /// Its licence text cannot be read, with the byte offset of the fault.
    Unreadable(usize),
    /// Its expression holds, with the entries that grant its requirements.
    Accepted(List<Granter>),
    /// Its expression does not hold, with the entries that grant requirements, and notes of those
    /// that nothing grants.
    Rejected(List<Granter>, List<Text>),
}

impl Judgement {
    /// The code of its diagnostic.
    pub fn code(&self) -> LicenseCode
        ensures { result ≡ code_of self.now }
    {
        match self {
            Judgement::Private => LicenseCode::SkippedPrivateWorkspaceCrate,
            Judgement::Unlicensed => LicenseCode::Unlicensed,
            Judgement::Unreadable(_) => LicenseCode::ParseError,
            Judgement::Accepted(_) => LicenseCode::Accepted,
            Judgement::Rejected(_, _) => LicenseCode::Rejected,
        }
    }

    /// The entries that grant the crate a licence.
    pub fn granters(&self) -> &[Granter]
        ensures { result.now ≡ granters_in self.now }
    {
        match self {
            Judgement::Private | Judgement::Unlicensed | Judgement::Unreadable(_) => &[],
            Judgement::Accepted(granters) | Judgement::Rejected(granters, _) => granters.as_slice(),
        }
    }
}

#[tactic(auto, unfolding(crate::specs::private::Judgements::judgement_of, deny_spec_report::specs::Licences::is_licensed))]
pub fn judgement_of(
    alloc: Global,
    granting: &Granting<'_>,
    krate: &Krate,
) -> Result<Judgement, NoMemory>
    ensures { IfOk result (λ judgement. judgement
        ≡ judgement_of (licensing_view granting.now.cfg.now) (crate_view 0 krate.now)) }
{
    if is_passed_over(granting.cfg, krate) {
        return Ok(Judgement::Private);
    }
    let text = licence_text(krate);
    if text.is_empty() {
        return Ok(Judgement::Unlicensed);
    }
    of_reading(alloc, granting, krate, text)
}

#[tactic(auto, unfolding(deny_spec_report::specs::Licences::is_passed_over))]
fn is_passed_over(cfg: &ValidConfig, krate: &Krate) -> bool
    ensures { result ≡ is_passed_over (licensing_view cfg.now) (crate_view 0 krate.now) }
{
    cfg.private_ignore && krate.is_private(cfg.private_registries.as_slice())
}

/// The text of a crate's licence; empty where it names none.
pub fn licence_text(krate: &Krate) -> &str
    ensures { result.now ≡ licence_text (crate_view 0 krate.now) }
{
    match &krate.license {
        Some(text) => text.as_str(),
        None => "",
    }
}

fn of_reading(
    alloc: Global,
    granting: &Granting<'_>,
    krate: &Krate,
    text: &str,
) -> Result<Judgement, NoMemory>
    ensures { IfOk result (λ judgement. judgement ≡ of_reading (licensing_view granting.now.cfg.now)
        (crate_view 0 krate.now) (reading_in text.now)) }
{
    match Expression::parse(alloc, text) {
        Ok(expression) => of_expression(alloc, granting, krate, &expression),
        Err(error) => unread(error),
    }
}

fn unread(error: SpdxError) -> Result<Judgement, NoMemory>
    ensures { IfOk result (λ judgement. unread_of error ≡ Some judgement) }
{
    match error {
        SpdxError::Bad(place) => Ok(Judgement::Unreadable(place)),
        SpdxError::Memory => Err(NoMemory),
    }
}

fn of_expression(
    alloc: Global,
    granting: &Granting<'_>,
    krate: &Krate,
    expression: &Expression,
) -> Result<Judgement, NoMemory>
    ensures { IfOk result (λ judgement. judgement ≡ of_expression (licensing_view granting.now.cfg.now)
        (crate_view 0 krate.now) expression.now) }
{
    let answers = answers_to(alloc, granting, krate, expression.requirements())?;
    if expression.evaluate(answers.allowed.as_slice()) {
        Ok(Judgement::Accepted(answers.granters))
    } else {
        Ok(Judgement::Rejected(answers.granters, answers.notes))
    }
}
