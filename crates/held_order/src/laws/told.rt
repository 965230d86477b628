//! The laws of the order that tables imply.
ghost use Rattle.held_order.specs.ToldLaws.{
  SomeOrderIsTold,
  ToldOrdersAgree,
  ToldOrdersAreRight,
  ToldOrdersAreStable,
};

/// Tables that imply an order are right by this order for every LID, and no two switches that a wire joins have the
/// same position in this order.
pub fn told_orders_are_right()
    ensures law { ToldOrdersAreRight }
{}

/// If tables are right for every LID by some order of the switches, and each usable switch is in the list of
/// preferences, then the tables imply an order.
pub fn some_order_is_told()
    ensures law { SomeOrderIsTold }
{}

/// If the preferences have each usable switch once, and tables are right for every LID by an order that agrees with
/// the preferences on their first k switches, then an order that the tables imply agrees with the preferences on
/// these switches, too.
pub fn told_orders_agree()
    ensures law { ToldOrdersAgree }
{}

/// If the preferences have each usable switch once, and tables are right for every LID by the order of the
/// preferences, then an order that the tables imply is that order.
pub fn told_orders_are_stable()
    ensures law { ToldOrdersAreStable }
{}
