//! The reports on the members, at the end of the output.

ghost use Rattle.std.specs.Prelude.{◌≡◌, ◌++◌, OnOk, string_bytes};
ghost use Rattle.am_cluster.specs.Ties.{names_in};
ghost use Rattle.am_replay.specs.Reports.{PrintsReports, report_text};

use crate::line::OutputLine;
use crate::output::tell;
use am_cluster::{CalmReport, Cluster};
use am_instance::Place;
use am_wire::Text;
use std::alloc::AllocError;

/// Appends the report on the member with this name.
#[tactic(auto, unfolding(crate::specs::Printed::line_text))]
fn tell_report(out: &mut String, name: &str, report: CalmReport) -> Result<(), AllocError>
    ensures { OnOk result (string_bytes out.new ≡ string_bytes out.old ++ report_text name.now report.first_fault) }
{
    match report.first_fault {
        Some(line) => tell(out, &OutputLine::Uncalm { name, line }),
        None => tell(out, &OutputLine::Calm { name }),
    }
}

/// Appends the reports on the members with these names, from the first place on.
fn tell_each(out: &mut String, cluster: &Cluster, names: &[Text]) -> Result<(), AllocError>
    ensures { OnOk result (PrintsReports cluster.now names.now (string_bytes out.old) (string_bytes out.new)) }
{
    for (place, name) in names.iter().enumerate() {
        tell_report(out, name.as_str(), cluster.calm(place as Place))?;
    }
    Ok(())
}

/// Appends the reports on all members, in the order of their names.
pub fn tell_reports(out: &mut String, cluster: &Cluster) -> Result<(), AllocError>
    ensures { OnOk result (PrintsReports cluster.now (names_in cluster.now) (string_bytes out.old) (string_bytes out.new)) }
{
    match cluster.instance(0) {
        Some(instance) => tell_each(out, cluster, instance.config().members()),
        None => Ok(()),
    }
}
