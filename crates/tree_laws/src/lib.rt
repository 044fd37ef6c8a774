//! Laws of whole runs of the network: what holds after every list of turns, for every fleet.
#![tactic(auto)]

ghost use Rattle.std.specs.Prelude.{◌<◌, ℕ, All, List, length};
ghost use Rattle.fleet_config.specs.Fleet.{FleetConfig, IsFleet};
ghost use Rattle.fleet_turns.specs.declared.turn.Turn.{Turn};
ghost use Rattle.tree_world.specs.Network.{Network, top_jobs};
ghost use Rattle.tree_world.specs.Settle.{after_settle};
ghost use Rattle.tree_laws.specs.Invariant.{Holds, IsSent};
ghost use Rattle.tree_laws.specs.Laws.{HoldsAfterRuns, ArePrefixesOfParents, AreJobsInOrder, JobsArePublished, NamesHeldJobs, HaveActedOnce, AreOutcomesFlat, AreReportsFlat, ReportsStayFlat, AreReportsSoFar, HaveFlatRows, AllRowsAscend, IsTaken, RecordsGrow, RunsInParts, HasFronts};
ghost use Rattle.tree_laws.specs.Settles.{HasSettled, SendsFewPackets, ReportsStayWhole};

/// Does nothing. Its contract is a list of laws: who wants one of them calls it.
///
/// - `invariant`: the whole invariant.
/// - `prefixes`: a node holds the first of its parent's jobs, and its parent has the first entries of each log that it has.
/// - `jobs_in_order`: the top has at most as many jobs as its fleet says, and at most 65,535, and their jids rise strictly.
/// - `published`: each job of the top is that of a publication among the turns.
/// - `names_held`: each return and each mine in a log names a job that the node with the log holds.
/// - `packets_fit`: the job or entry of a packet stands at its number in its sender's list, and its count is at most its sender's.
/// - `acted_once`: a minion runs the jobs of the top once each and in order, as a flat minion does, and holds what that one holds.
/// - `outcomes`: an outcome that a node has of a minion at or below it is that of the flat minion.
/// - `reports`: each row of a report at the top stands in the report of the flat fleet.
/// - `reports_stay`: and whatever comes later, in that of the flat fleet that ran the later jobs too.
/// - `reports_so_far`: the report is that of the flat fleet, without the rows of the minions whose return has not come.
/// - `flat_rows`: the report of the flat fleet has a row exactly for each minion that returned the job there, with its outcome.
/// - `rows_ascend`: the ids of the rows of any report ascend strictly, by bytes.
/// - `none_stray`: no packet of the network is stray.
/// - `grows`: no turn takes a record away.
/// - `after_append`, `front`: a run in two parts, so that each law holds after every turn of a run.
pub fn whole_runs()
    ensures invariant { HoldsAfterRuns (λ f w. Holds f.tree w) }
    ensures prefixes { HoldsAfterRuns ArePrefixesOfParents }
    ensures jobs_in_order { HoldsAfterRuns (λ f w. AreJobsInOrder f.max_jobs (top_jobs w)) }
    ensures published { JobsArePublished }
    ensures names_held { HoldsAfterRuns (λ f w. (i : ℕ) → i < length f.tree → NamesHeldJobs w i) }
    ensures packets_fit { HoldsAfterRuns (λ f w. All (IsSent f.tree w.nodes) w.packets) }
    ensures acted_once { HoldsAfterRuns HaveActedOnce }
    ensures outcomes { HoldsAfterRuns AreOutcomesFlat }
    ensures reports { HoldsAfterRuns AreReportsFlat }
    ensures reports_stay { ReportsStayFlat }
    ensures reports_so_far { HoldsAfterRuns AreReportsSoFar }
    ensures flat_rows { (f : FleetConfig) → IsFleet f → HaveFlatRows f }
    ensures rows_ascend { (f : FleetConfig) → IsFleet f → AllRowsAscend f }
    ensures none_stray { HoldsAfterRuns (λ f w. All (IsTaken f.tree w) w.packets) }
    ensures grows { (f : FleetConfig) (turns : List Turn) (w : Network) → RecordsGrow f turns w }
    ensures after_append { (f : FleetConfig) → RunsInParts f }
    ensures front { (f : FleetConfig) → HasFronts f }
{}

/// Does nothing. Its contract is a list of laws on a settle from the network after any run.
///
/// - `settles`: each node then holds all jobs, each master the whole log of each minion below it, and each report is the flat one.
/// - `settle_bound`: two packets at most for each job and each node but the top, and two for each entry and each level but the first.
/// - `reports_whole`: whatever comes later, the report of each job that the top had then stays that of the flat fleet.
pub fn whole_settles()
    ensures settles { HoldsAfterRuns (λ f w. HasSettled f.tree (top_jobs w) (after_settle f w)) }
    ensures settle_bound { HoldsAfterRuns (λ f w. SendsFewPackets f.tree w (after_settle f w)) }
    ensures reports_whole { ReportsStayWhole }
{}
