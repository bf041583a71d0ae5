// What arbitration looks for, over rows of numbers: the first of the least cores and of the highest candidates by one minimum and one
// maximum (`places`), and the highest key by the comparator tree without the ranges that hold no candidate (`search`, by `marks`).
// Calls for the crates above, which know that the range lies inside the array.
#![tactic(auto)]

pub mod marks;
pub mod places;
pub mod search;
