//! Laws of what a client of Object Push finds its peer at fault of.

ghost use Rattle.push_laws.specs.Blames.{FaultsAreOfTheTable, NumbersAreApart, OnlyNewsBlame, PeersAreBlamedExactly};

/// What a client hears shows that its peer is at fault, with this layer and this reason, exactly by a row of the table: the status of a
/// link that was not made; the end of a channel by its retransmission machine, its options or the response to its request, or a channel
/// that takes too little; a reply of the service records; the end of the multiplexer; a response. Nothing else that happens to a client shows that, and
/// the numbers of the machine's reasons are none of those of the other ends of a channel.
pub fn faults_are_of_the_table()
    ensures rows { FaultsAreOfTheTable }
    ensures only { OnlyNewsBlame }
    ensures apart { NumbersAreApart }
{}

/// From where a push has no cause, it ends with its peer at fault exactly where a row of the table is heard and no cause came before it.
pub fn peers_are_blamed_exactly()
    ensures { PeersAreBlamedExactly }
{}
