//! The laws of ranks and of routes.
ghost use Rattle.updown_routes.specs.RankLaws.{RankLaw, BeforeLaw, SlopeLaw};
ghost use Rattle.updown_routes.specs.Channels.{ChannelLaw};
ghost use Rattle.updown_routes.specs.Updown.{UpdownIsRouting};
ghost use Rattle.updown_routes.specs.RouteLaws.{DownDistanceLaw, CostLaw, CostRecursion, NextPortLaw, WayLaw};
ghost use Rattle.updown_routes.specs.RouteLaws.{NoCostBetween, CostInComponent};

/// Each switch has a rank: the length of a shortest walk to it from the root of its component. The root is the switch
/// with the least GUID in the component.
pub fn ranks_are_in_words()
    ensures { RankLaw }
{}

/// A switch is before another exactly when its rank is less, or the two ranks are equal and its GUID is less.
pub fn before_is_in_words()
    ensures { BeforeLaw }
{}

/// A wire from switch `a` to switch `b` leads up exactly when `b` is before `a`, and down exactly when `a` is before
/// `b`.
pub fn up_and_down_are_in_words()
    ensures { SlopeLaw }
{}

/// The down distance of a switch to a target is the length of a shortest walk down to the target. It is missing exactly
/// when no walk down leads there.
pub fn down_distances_are_in_words()
    ensures { DownDistanceLaw }
{}

/// The cost of a switch to a target is the length of a shortest route there, and is missing exactly when there is no
/// route. A route is a climb past switches from which no walk leads down to the target, and then a shortest walk down.
pub fn costs_are_in_words()
    ensures { CostLaw }
{}

/// The cost of a switch to a target is its down distance if there is one. Otherwise it is one more than the least cost
/// of the switches that wires up lead to. There is no cost if none of these switches has one.
pub fn costs_follow_the_wires_up()
    ensures { CostRecursion }
{}

/// If a walk down leads from a switch to a target, the next port of the switch towards the target is the least port of
/// a wire down to a switch one nearer. Otherwise it is the least port of a wire up to a switch of least cost.
pub fn next_ports_are_in_words()
    ensures { NextPortLaw }
{}

/// From each switch that has a cost to a target, the next ports lead to the target, up and then down, along as many
/// wires as the cost.
pub fn next_ports_lead_to_the_target()
    ensures { WayLaw }
{}

/// A switch has no cost and no next port towards any vertex outside its component.
pub fn no_cost_between_components()
    ensures { NoCostBetween }
{}

/// Each switch has a cost to each switch of its component.
pub fn a_cost_within_a_component()
    ensures { CostInComponent }
{}

/// Channel numbers rise along each way that follows next ports, so packets never wait for one another in a credit
/// loop.
pub fn channels_rise_along_ways()
    ensures { ChannelLaw }
{}

/// Up/down routing is a rule of routing. Within a component, routes lead from each switch to each other switch along
/// as many wires as the cost. They pass no switch twice, and take channels of rising numbers.
pub fn up_and_down_is_a_routing()
    ensures { UpdownIsRouting }
{}
