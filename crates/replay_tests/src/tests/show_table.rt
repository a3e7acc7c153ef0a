// Days on which boards are read, written as those of `node_table`.

/// Reads of boards stand behind the issues, by line and issue.
pub(super) const SHOWS: &str =
    "# In each phase, before, between and after events, with a quote and without one.
> g1 AAAA show
> g1 AAAA clock 08:00:00
> g1 AAAA show
> g1 AAAA order p1 buy 19990 100
> g2 AAAA show
> g1 AAAA order p2 sell 20010 100
> g1 AAAA clock 09:00:00
> g1 AAAA show
> g1 AAAA order p1 buy 20010 200
> g1 AAAA show
> g1 AAAA order p3 sell 21000 100
> g1 AAAA order p1 buy market 300
> g1 AAAA show
> g3 AAAA order p4 sell 20500 400
> g3 AAAA show
> g1 AAAA clock 11:30:00
> g1 AAAA show
market 1
issue AAAA base 20000 unit 100 low 15000 high 25000 prices 1001
0 g1 0 clock 08:00:00.000
due 08:00:00.000
phase collecting
= moment 1
1 g1 1 order p1 buy 19990 100
= accepted 1 0 100
2 g1 2 order p2 sell 20010 100
= accepted 2 0 100
3 g1 3 clock 09:00:00.000
due 09:00:00.000
phase trading
auction 20000 19500 20500
calm 19990 20010
= moment 1
4 g1 4 order p1 buy 20010 200
trade 20010 100 4 2
= accepted 4 100 100
5 g1 5 order p3 sell 21000 100
= accepted 5 0 100
6 g1 6 order p1 buy market 300
quote special buy 20510 09:03:00.000
= accepted 6 0 300
7 g3 0 order p4 sell 20500 400
auction 20510 19510 20510
rejected 20510 300 300 400 400
price 20500 300 300 300 400 0
trade 20500 300 6 7
quote none
= accepted 7 300 100
8 g1 7 clock 11:30:00.000
due 11:30:00.000
auction 20500 20000 21000
calm 20010 20500
phase idle
= moment 1
nodes synchronised synchronised synchronised
total AAAA entries 9 trades 2 shares 400 last 20500
show 1 g1 AAAA 0 idle 20000 - - -
show 3 g1 AAAA 1 collecting 20000 - - -
show 5 g2 AAAA 2 collecting 20000 19990 - -
show 8 g1 AAAA 4 trading 20000 19990 20010 -
show 10 g1 AAAA 5 trading 20010 20010 - -
show 13 g1 AAAA 7 trading 20010 20010 21000 special buy 20510 09:03:00.000
show 15 g3 AAAA 8 trading 20500 20010 20500 -
show 17 g1 AAAA 9 idle 20500 20010 20500 -
end
@ 0 9 9 9

# A sequential quote.
> g1 AAAA clock 09:00:00
> g1 AAAA order p2 sell 20400 100
> g1 AAAA order p2 sell 20800 100
> g1 AAAA order p2 sell 21200 100
> g1 AAAA order p1 buy market 300
> g4 AAAA show
..
quote sequential buy 21000 09:01:00.000
= accepted 4 200 100
nodes synchronised synchronised synchronised
total AAAA entries 5 trades 2 shares 200 last 20800
show 6 g4 AAAA 5 trading 20800 - 21200 sequential buy 21000 09:01:00.000
end
@ 0 5 5 5

# A quote that is due no more.
> g1 AAAA clock 10:00:00
> g1 AAAA order p1 buy market 100
> g1 AAAA clock 11:00:00
> g1 AAAA show
..
quote special buy 25000 -
= moment 9
nodes synchronised synchronised synchronised
total AAAA entries 3 trades 0 shares 0 last 20000
show 4 g1 AAAA 3 trading 20000 - - special buy 25000 -
end
@ 0 3 3 3

# The boards of all issues, in file order; the end of a stage changes nothing.
>> g1 * show
>> barrier
>> g1 BBBB clock 08:00:00
>> barrier
>> barrier
>> g2 * show
>> g2 BBBB show
market 1
issue AAAA base 20000 unit 100 low 15000 high 25000 prices 1001
nodes synchronised synchronised synchronised
total AAAA entries 0 trades 0 shares 0 last 20000
issue BBBB base 12000 unit 100 low 9000 high 15000 prices 601
0 g1 0 clock 08:00:00.000
due 08:00:00.000
phase collecting
= moment 1
nodes synchronised synchronised synchronised
total BBBB entries 1 trades 0 shares 0 last 12000
show 1 g1 AAAA 0 idle 20000 - - -
show 1 g1 BBBB 0 idle 12000 - - -
show 6 g2 AAAA 0 idle 20000 - - -
show 6 g2 BBBB 1 collecting 12000 - - -
show 7 g2 BBBB 1 collecting 12000 - - -
end
@ 0 0 0 0

# The board of an issue that is halted stays as it was.
> g1 AAAA crash 0
> g1 AAAA clock 08:00:00
> g1 AAAA crash 1
> g1 AAAA show
> g1 AAAA crash 2
> g1 AAAA show
> g1 AAAA order p1 buy 20000 100
> g1 AAAA show
market 1
issue AAAA base 20000 unit 100 low 15000 high 25000 prices 1001
0 g1 0 crash 0
= out 0
1 g1 1 clock 08:00:00.000
due 08:00:00.000
phase collecting
= moment 1
2 g1 2 crash 1
= out 1
halted g1 3 crash 2
nodes lost lost lost
total AAAA entries 3 trades 0 shares 0 last 20000
show 4 g1 AAAA 3 collecting 20000 - - -
show 6 g1 AAAA 3 collecting 20000 - - -
show 8 g1 AAAA 3 collecting 20000 - - -
end
@ 6 0 0 0

# A loss that is recorded counts in the length.
! 2:1
> g1 AAAA clock 08:00:00
> g1 AAAA show
> g1 AAAA order p1 buy 20000 100
> g1 AAAA show
..
2 - 0 crash 2
= out 2
nodes synchronised synchronised lost
total AAAA entries 3 trades 0 shares 0 last 20000
show 2 g1 AAAA 1 collecting 20000 - - -
show 4 g1 AAAA 3 collecting 20000 20000 - -
end
@ 0 3 3 0

# A day of four gateways in stages, over two issues.
>> g1 * clock 08:00:00
>> barrier
>> g1 AAAA order p1 buy 20010 500
>> g1 AAAA show
>> g2 AAAA order p2 sell 19990 300
>> g2 AAAA show
>> g3 BBBB order p3 buy market 200
>> g3 BBBB show
>> g4 BBBB order p4 sell 12000 400
>> g4 BBBB show
>> barrier
>> g1 * clock 09:00:00
>> barrier
>> g1 AAAA order p1 sell 20020 100
>> g2 BBBB order p2 buy 12000 200
>> g3 AAAA order p3 buy 20010 100
>> g4 * crash 1
>> barrier
>> g4 * rejoin 1
>> barrier
>> g1 * clock 15:00:00
market 1
issue AAAA base 20000 unit 100 low 15000 high 25000 prices 1001
0 g1 0 clock 08:00:00.000
due 08:00:00.000
phase collecting
= moment 1
1 g1 1 order p1 buy 20010 500
= accepted 1 0 500
2 g2 0 order p2 sell 19990 300
= accepted 2 0 300
3 g1 2 clock 09:00:00.000
due 09:00:00.000
phase trading
auction 20000 19500 20500
rejected 20000 500 500 300 300
rejected 19990 500 500 300 0
price 20010 300 500 0 300 300
trade 20010 300 1 2
= moment 1
4 g1 3 order p1 sell 20020 100
= accepted 4 0 100
5 g3 0 order p3 buy 20010 100
= accepted 5 0 100
6 g4 0 crash 1
= out 1
7 g4 1 rejoin 1
= joined 1
8 g1 4 clock 15:00:00.000
due 11:30:00.000
auction 20010 19510 20510
calm 20010 20020
phase idle
due 12:05:00.000
phase collecting
due 12:30:00.000
phase trading
auction 20010 19510 20510
calm 20010 20020
due 15:00:00.000
auction 20010 19510 20510
calm 20010 20020
phase idle
= moment 4
nodes synchronised synchronised synchronised
total AAAA entries 9 trades 1 shares 300 last 20010
issue BBBB base 12000 unit 100 low 9000 high 15000 prices 601
0 g1 0 clock 08:00:00.000
due 08:00:00.000
phase collecting
= moment 1
1 g3 0 order p3 buy market 200
= accepted 1 0 200
2 g4 0 order p4 sell 12000 400
= accepted 2 0 400
3 g1 1 clock 09:00:00.000
due 09:00:00.000
phase trading
auction 12000 11700 12300
price 12000 200 200 200 400 0
trade 12000 200 1 2
= moment 1
4 g2 0 order p2 buy 12000 200
trade 12000 200 4 2
= accepted 4 200 0
5 g4 1 crash 1
= out 1
6 g4 2 rejoin 1
= joined 1
7 g1 2 clock 15:00:00.000
due 11:30:00.000
auction 12000 11700 12300
calm - -
phase idle
due 12:05:00.000
phase collecting
due 12:30:00.000
phase trading
auction 12000 11700 12300
calm - -
due 15:00:00.000
auction 12000 11700 12300
calm - -
phase idle
= moment 4
nodes synchronised synchronised synchronised
total BBBB entries 8 trades 2 shares 400 last 12000
show 4 g1 AAAA 2 collecting 20000 20010 - -
show 6 g2 AAAA 3 collecting 20000 20010 19990 -
show 8 g3 BBBB 2 collecting 12000 - - -
show 10 g4 BBBB 3 collecting 12000 - 12000 -
end
@ 0 9 9 9

";
