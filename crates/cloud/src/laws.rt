//! Laws of every sound cloud: a function for each, whose contract is the law. They rest on the outcomes alone.

ghost use Rattle.cloud.specs.Laws.{NextWalksAllNames, OtherNamesKeepTheirValues, WhatIsPutIsGotBack};

/// A value that was put under a name is got back, as long as the name is not put or dropped again.
pub fn what_is_put_is_got_back()
    ensures { WhatIsPutIsGotBack }
{}

/// A name that is neither put nor dropped keeps its value, or stays absent.
pub fn other_names_keep_their_values()
    ensures { OtherNamesKeepTheirValues }
{}

/// Next, asked again and again from the empty name on, gives all names above it, ascending and once each.
pub fn next_walks_all_names()
    ensures { NextWalksAllNames }
{}
