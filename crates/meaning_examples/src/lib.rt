//! Worked rows. Those of the machine are over maps that compute: bench/machine_examples.py makes these definitions. The others are of the
//! records of areas and the bytes of these, command lines, lines of scripts, options, tables, rows that fit, the order of refusals, what a
//! commit lists, expressions, digits, names, tokens and the texts of a datalink.
#![tactic(auto)]
