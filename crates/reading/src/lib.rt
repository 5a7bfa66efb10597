// The laws of reading: a text is accepted as a diagram just where it is that diagram's text and the
// diagram is well formed, and a table likewise; any other is refused with 1 to 6. The statements
// stand in specs/Laws. No code.

#![tactic(auto)]
