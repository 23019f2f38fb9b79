//! Laws about the definitions of a policy.
ghost use Rattle.std.specs.Prelude.{◌≡◌, List, ℕ};
ghost use Rattle.mv_orders.specs.declared.order.Order.{Order};
ghost use Rattle.mv_orders.specs.Order.{IsOrder};
ghost use Rattle.mv_policy.specs.PolicyText.{which_text};
ghost use Rattle.mv_policy.specs.Decided.{first_word};
ghost use Rattle.mv_policy.specs.Orders.{which_order};

/// The words of a policy are those of the orders: each line that gives an order begins with the word that a policy has for it.
pub fn words_are_orders()
    ensures { (line : List ℕ) (order : Order) → IsOrder line order → first_word line ≡ which_text (which_order order) }
{}
