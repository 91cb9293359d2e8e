//! How many entries have which verdict, and whether something is found.
ghost use Rattle.std.specs.{Prelude.◌≡◌, Prelude.not, List.list_any};
ghost use Rattle.of_check.specs.Verdicts.{is_never as is_never_in};
ghost use Rattle.of_report.specs.Report.{count, is_finding as is_finding_among, is_found as is_found_in, is_open as is_open_in, is_win as is_win_in};

use crate::remarks::is_finding;
use of_check::{Finding, Remark, Verdict, is_never};

fn is_win(verdict: &Verdict) -> bool
    ensures { result ≡ is_win_in verdict.now }
{
    match verdict {
        Verdict::Wins { .. } => true,
        Verdict::Never { .. } | Verdict::Unreceived | Verdict::Open => false,
    }
}

fn is_open(verdict: &Verdict) -> bool
    ensures { result ≡ is_open_in verdict.now }
{
    match verdict {
        Verdict::Open => true,
        Verdict::Wins { .. } | Verdict::Never { .. } | Verdict::Unreceived => false,
    }
}

/// How many entries win.
pub fn count_wins(findings: &[Finding]) -> usize
    ensures { result ≡ count is_win_in findings.now }
{
    findings
        .iter()
        .filter(|finding| is_win(&finding.verdict))
        .count()
}

/// How many entries never win.
pub fn count_shadowed(findings: &[Finding]) -> usize
    ensures { result ≡ count is_never_in findings.now }
{
    findings
        .iter()
        .filter(|finding| is_never(&finding.verdict))
        .count()
}

/// How many entries were not decided.
pub fn count_open(findings: &[Finding]) -> usize
    ensures { result ≡ count is_open_in findings.now }
{
    findings
        .iter()
        .filter(|finding| is_open(&finding.verdict))
        .count()
}

fn some_lose(findings: &[Finding]) -> bool
    ensures { result ≡ list_any (λ f. not (is_win_in f.verdict)) findings.now }
{
    findings.iter().any(|finding| !is_win(&finding.verdict))
}

fn some_findings(remarks: &[Remark]) -> bool
    ensures { result ≡ list_any (is_finding_among remarks.now) remarks.now }
{
    remarks.iter().any(|remark| is_finding(remarks, remark))
}

/// Whether something is found: an entry that does not win, or a remark that is a finding.
pub fn is_found(findings: &[Finding], remarks: &[Remark]) -> bool
    ensures { result ≡ is_found_in findings.now remarks.now }
{
    some_lose(findings) || some_findings(remarks)
}
