ghost use Rattle.std.specs.Prelude.{◌≡◌};

use crate::Args;
use crate::acts::Action;

// What operands say, and 0 where there are none of the sort.
impl Args {
    ghost use Rattle.op_table.specs.Actions.{distance_of, increment_of, index_of, local_of, number_of, switch_of};

    pub(crate) fn number(&self) -> i32
        ensures { result ≡ number_of self.now }
    {
        match self {
            Args::Num(number) => *number,
            _ => 0,
        }
    }

    pub(crate) fn local(&self) -> u16
        ensures { result ≡ local_of self.now }
    {
        match self {
            Args::Local(local) => *local,
            _ => 0,
        }
    }

    pub(crate) fn index(&self) -> u16
        ensures { result ≡ index_of self.now }
    {
        match self {
            Args::Index(index) => *index,
            _ => 0,
        }
    }

    pub(crate) fn distance(&self) -> i32
        ensures { result ≡ distance_of self.now }
    {
        match self {
            Args::Jump(distance) => *distance,
            _ => 0,
        }
    }

    pub(crate) fn increment(&self) -> Action
        ensures { result ≡ increment_of self.now }
    {
        match self {
            Args::Inc(local, amount) => Action::Increment(*local, *amount),
            _ => Action::Increment(0, 0),
        }
    }

    pub(crate) fn switch(&self) -> Action
        ensures { result ≡ switch_of self.now }
    {
        match self {
            Args::Switch {
                default,
                low,
                count,
                pairs,
            } => Action::Switch {
                default: *default,
                low: *low,
                count: *count,
                pairs: *pairs,
            },
            _ => Action::Switch {
                default: 0,
                low: 0,
                count: 0,
                pairs: false,
            },
        }
    }
}
