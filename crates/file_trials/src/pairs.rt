// The pairs of theories that the two programs check over.
use equality::Equality;
use linear::{Fractions, Whole};
use theory::{Pair, Single};

pub(crate) type OverFractions = Pair<Single<Equality>, Single<Fractions>>;

pub(crate) type OverWhole = Pair<Single<Equality>, Single<Whole>>;
