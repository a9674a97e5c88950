// What wipes units that are left. A value and no closure that makes the tally, since it serves tallies of three types.
#[derive(Clone, Copy, PartialEq, Eq, Debug)]
pub enum Cause {
    Restart,
    Switch,
}
