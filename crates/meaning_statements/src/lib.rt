//! What statements of SQL mean (ISO/IEC 9075-2): definitions over whole lists, which filter, multiply, group and sort.
#![tactic(auto)]
