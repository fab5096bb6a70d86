// The laws of the product that faster forms of it stand on.
ghost use Rattle.ghash.specs.Laws.{LinearLeft, LinearRight, Commutative, Associative};

pub fn product_laws()
    ensures left { LinearLeft }
    ensures right { LinearRight }
    ensures commutative { Commutative }
    ensures associative { Associative }
{}
