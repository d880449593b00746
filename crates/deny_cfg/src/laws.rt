//! A text writes at most one policy.
ghost use Rattle.std.specs.Prelude.{◌≡◌, ◌⊎◌, ℕ, List, [], ◌∷◌, Option};
ghost use Rattle.deny_base.specs.declared.finding.Diagnostic.{Diagnostic};
ghost use Rattle.deny_base.specs.declared.span.Span.{Span};
ghost use Rattle.deny_toml.specs.Faults.{fault_at};
ghost use Rattle.deny_toml.specs.error.ConfigFault.{ConfigFault};
ghost use Rattle.deny_toml.specs.error.FaultKind.TheVariants.{Grammar};
ghost use Rattle.deny_cfg_entries.specs.declared.day.Day.{Day};
ghost use Rattle.deny_cfg.specs.LicensingView.{licensing_of};
ghost use Rattle.deny_cfg.specs.PolicyText.{IsPolicyOf, ListsFaults, ReportsClashes};
ghost use Rattle.deny_cfg.specs.PolicyView.{building_of, builtin_file_of, past_waivers_of, policy_view};
ghost use Rattle.deny_cfg.specs.declared.policy.Policy.{Policy};

/// Two policies that are read from one text on one day are the same in all that the rules see, and in which entries
/// have expired, with their days and reasons.
pub fn one_policy()
    ensures bans { (today : Option Day) → (text : List ℕ) → (file : ℕ) → (a b : Policy)
        → IsPolicyOf today text file a → IsPolicyOf today text file b → policy_view a.bans ≡ policy_view b.bans }
    ensures building { (today : Option Day) → (text : List ℕ) → (file : ℕ) → (a b : Policy)
        → IsPolicyOf today text file a → IsPolicyOf today text file b → building_of a.bans ≡ building_of b.bans }
    ensures globs { (today : Option Day) → (text : List ℕ) → (file : ℕ) → (a b : Policy)
        → IsPolicyOf today text file a → IsPolicyOf today text file b → builtin_file_of a.bans ≡ builtin_file_of b.bans }
    ensures warnings { (today : Option Day) → (text : List ℕ) → (file : ℕ) → (a b : Policy)
        → IsPolicyOf today text file a → IsPolicyOf today text file b → a.warnings ≡ b.warnings }
    ensures expired { (today : Option Day) → (text : List ℕ) → (file : ℕ) → (a b : Policy)
        → IsPolicyOf today text file a → IsPolicyOf today text file b → a.expired ≡ b.expired }
    ensures waivers { (today : Option Day) → (text : List ℕ) → (file : ℕ) → (a b : Policy)
        → IsPolicyOf today text file a → IsPolicyOf today text file b → past_waivers_of a ≡ past_waivers_of b }
    ensures licences { (today : Option Day) → (text : List ℕ) → (file : ℕ) → (a b : Policy)
        → IsPolicyOf today text file a → IsPolicyOf today text file b → licensing_of a.licenses ≡ licensing_of b.licenses }
{}

/// The reason why a text is no policy is unique: its faults, or else its clashes. Only the span of the fault of
/// a text outside the grammar is free. A text with faults or clashes has no policy. Its clashes are the same on each
/// day.
pub fn one_refusal()
    ensures faults { (today : Option Day) → (text : List ℕ) → (xs ys : List ConfigFault)
        → ListsFaults today text xs → ListsFaults today text ys
        → (xs ≡ ys)
        ⊎ (((span : Span) × (xs ≡ fault_at Grammar [] span ∷ []))
        × ((span : Span) × (ys ≡ fault_at Grammar [] span ∷ []))) }
    ensures clashes { (here there : Option Day) → (text : List ℕ) → (file : ℕ) → (xs ys : List Diagnostic)
        → ReportsClashes here text file xs → ReportsClashes there text file ys → xs ≡ ys }
    ensures faults_alone { (today : Option Day) → (text : List ℕ) → (file : ℕ) → (faults : List ConfigFault)
        → (reported : List Diagnostic) → ListsFaults today text faults → ReportsClashes today text file reported → ⊥ }
    ensures no_policy_with_faults { (today : Option Day) → (text : List ℕ) → (file : ℕ) → (faults : List ConfigFault)
        → (policy : Policy) → ListsFaults today text faults → IsPolicyOf today text file policy → ⊥ }
    ensures no_policy_with_clashes { (today other : Option Day) → (text : List ℕ) → (here there : ℕ)
        → (reported : List Diagnostic) → (policy : Policy) → ReportsClashes today text here reported
        → IsPolicyOf other text there policy → ⊥ }
{}
