// Days of one issue and of two, and what is printed of them.

/// Each day has a name, behind `#`; its script, a line behind each `>`, or behind each `>>` where the rules have two issues; and
/// its report, in which three dots stand for so many rejected prices. A day ends at an empty line.
pub(super) const DAYS: &str =
    "# One issue: orders are collected and do not trade, the opening is calm.
> g1 AAAA clock 08:00:00
> g1 AAAA order p1 buy 19990 100
> g1 AAAA order p2 sell 20010 100
> g1 AAAA clock 09:00:00
market 1
issue AAAA base 20000 unit 100 low 15000 high 25000 prices 1001
0 g1 0 clock 08:00:00.000
due 08:00:00.000
phase collecting
= moment 1
1 g1 1 order p1 buy 19990 100
= accepted 1 0 100
2 g1 2 order p2 sell 20010 100
= accepted 2 0 100
3 g1 3 clock 09:00:00.000
due 09:00:00.000
phase trading
auction 20000 19500 20500
calm 19990 20010
= moment 1
nodes synchronised synchronised synchronised
total AAAA entries 4 trades 0 shares 0 last 20000
end

# An opening that trades, at the third price that is tried.
> g1 AAAA clock 08:00:00
> g1 AAAA order p1 buy 20010 500
> g1 AAAA order p2 sell 19990 300
> g1 AAAA clock 09:00:00
market 1
issue AAAA base 20000 unit 100 low 15000 high 25000 prices 1001
0 g1 0 clock 08:00:00.000
due 08:00:00.000
phase collecting
= moment 1
1 g1 1 order p1 buy 20010 500
= accepted 1 0 500
2 g1 2 order p2 sell 19990 300
= accepted 2 0 300
3 g1 3 clock 09:00:00.000
due 09:00:00.000
phase trading
auction 20000 19500 20500
rejected 20000 500 500 300 300
rejected 19990 500 500 300 0
price 20010 300 500 0 300 300
trade 20010 300 1 2
= moment 1
nodes synchronised synchronised synchronised
total AAAA entries 4 trades 1 shares 300 last 20010
end

# A market buy takes the best two sells.
> g1 AAAA clock 09:00:00
> g1 AAAA order p2 sell 20010 100
> g1 AAAA order p3 sell 20400 100
> g1 AAAA order p1 buy market 200
market 1
issue AAAA base 20000 unit 100 low 15000 high 25000 prices 1001
0 g1 0 clock 09:00:00.000
due 08:00:00.000
phase collecting
due 09:00:00.000
phase trading
auction 20000 19500 20500
calm - -
= moment 2
1 g1 1 order p2 sell 20010 100
= accepted 1 0 100
2 g1 2 order p3 sell 20400 100
= accepted 2 0 100
3 g1 3 order p1 buy market 200
trade 20010 100 3 1
trade 20400 100 3 2
= accepted 3 200 0
nodes synchronised synchronised synchronised
total AAAA entries 4 trades 2 shares 200 last 20400
end

# One order would go too far: a sequential quote, which trades at its due moment.
> g1 AAAA clock 09:00:00
> g1 AAAA order p2 sell 20400 100
> g1 AAAA order p2 sell 20800 100
> g1 AAAA order p2 sell 21200 100
> g1 AAAA order p1 buy market 300
> g1 AAAA clock 09:01:00
market 1
issue AAAA base 20000 unit 100 low 15000 high 25000 prices 1001
0 g1 0 clock 09:00:00.000
due 08:00:00.000
phase collecting
due 09:00:00.000
phase trading
auction 20000 19500 20500
calm - -
= moment 2
1 g1 1 order p2 sell 20400 100
= accepted 1 0 100
2 g1 2 order p2 sell 20800 100
= accepted 2 0 100
3 g1 3 order p2 sell 21200 100
= accepted 3 0 100
4 g1 4 order p1 buy market 300
trade 20400 100 4 1
trade 20800 100 4 2
quote sequential buy 21000 09:01:00.000
= accepted 4 200 100
5 g1 5 clock 09:01:00.000
due 09:01:00.000
auction 21000 20300 21500
rejected 21000 100 100 0 0
... 38
rejected 20800 100 100 0 0
price 21200 100 100 100 100 0
trade 21200 100 4 3
quote none
= moment 1
nodes synchronised synchronised synchronised
total AAAA entries 6 trades 3 shares 300 last 21200
end

# The next price is too far: a special quote, which trades at its due moment.
> g1 AAAA clock 09:00:00
> g1 AAAA order p2 sell 21000 100
> g1 AAAA order p1 buy market 100
> g1 AAAA clock 09:03:00
market 1
issue AAAA base 20000 unit 100 low 15000 high 25000 prices 1001
0 g1 0 clock 09:00:00.000
due 08:00:00.000
phase collecting
due 09:00:00.000
phase trading
auction 20000 19500 20500
calm - -
= moment 2
1 g1 1 order p2 sell 21000 100
= accepted 1 0 100
2 g1 2 order p1 buy market 100
quote special buy 20500 09:03:00.000
= accepted 2 0 100
3 g1 3 clock 09:03:00.000
due 09:03:00.000
auction 20500 19500 21000
rejected 20500 100 100 0 0
... 98
rejected 20000 100 100 0 0
price 21000 100 100 100 100 0
trade 21000 100 2 1
quote none
= moment 1
nodes synchronised synchronised synchronised
total AAAA entries 4 trades 1 shares 100 last 21000
end

# A sell within the window ends it before that.
> g1 AAAA clock 09:00:00
> g1 AAAA order p2 sell 21000 100
> g1 AAAA order p1 buy market 100
> g1 AAAA order p3 sell 20300 100
market 1
issue AAAA base 20000 unit 100 low 15000 high 25000 prices 1001
0 g1 0 clock 09:00:00.000
due 08:00:00.000
phase collecting
due 09:00:00.000
phase trading
auction 20000 19500 20500
calm - -
= moment 2
1 g1 1 order p2 sell 21000 100
= accepted 1 0 100
2 g1 2 order p1 buy market 100
quote special buy 20500 09:03:00.000
= accepted 2 0 100
3 g1 3 order p3 sell 20300 100
auction 20500 19500 20500
price 20500 100 100 100 100 100
trade 20500 100 2 3
quote none
= accepted 3 100 0
nodes synchronised synchronised synchronised
total AAAA entries 4 trades 1 shares 100 last 20500
end

# Three renewals in one clock event.
> g1 AAAA clock 10:00:00
> g1 AAAA order p1 buy market 100
> g1 AAAA clock 10:10:00
market 1
issue AAAA base 20000 unit 100 low 15000 high 25000 prices 1001
0 g1 0 clock 10:00:00.000
due 08:00:00.000
phase collecting
due 09:00:00.000
phase trading
auction 20000 19500 20500
calm - -
= moment 2
1 g1 1 order p1 buy market 100
quote special buy 20500 10:03:00.000
= accepted 1 0 100
2 g1 2 clock 10:10:00.000
due 10:03:00.000
auction 20500 19500 21000
pressed buy 21000 100 0
quote special buy 21000 10:06:00.000
due 10:06:00.000
auction 21000 19500 21500
pressed buy 21500 100 0
quote special buy 21500 10:09:00.000
due 10:09:00.000
auction 21500 19500 22000
pressed buy 22000 100 0
quote special buy 22000 10:12:00.000
= moment 3
nodes synchronised synchronised synchronised
total AAAA entries 3 trades 0 shares 0 last 20000
end

# Nine, up to the daily limit.
> g1 AAAA clock 10:00:00
> g1 AAAA order p1 buy market 100
> g1 AAAA clock 11:00:00
market 1
issue AAAA base 20000 unit 100 low 15000 high 25000 prices 1001
0 g1 0 clock 10:00:00.000
due 08:00:00.000
phase collecting
due 09:00:00.000
phase trading
auction 20000 19500 20500
calm - -
= moment 2
1 g1 1 order p1 buy market 100
quote special buy 20500 10:03:00.000
= accepted 1 0 100
2 g1 2 clock 11:00:00.000
due 10:03:00.000
auction 20500 19500 21000
pressed buy 21000 100 0
quote special buy 21000 10:06:00.000
due 10:06:00.000
auction 21000 19500 21500
pressed buy 21500 100 0
quote special buy 21500 10:09:00.000
due 10:09:00.000
auction 21500 19500 22000
pressed buy 22000 100 0
quote special buy 22000 10:12:00.000
due 10:12:00.000
auction 22000 19500 22500
pressed buy 22500 100 0
quote special buy 22500 10:15:00.000
due 10:15:00.000
auction 22500 19500 23000
pressed buy 23000 100 0
quote special buy 23000 10:18:00.000
due 10:18:00.000
auction 23000 19500 23500
pressed buy 23500 100 0
quote special buy 23500 10:21:00.000
due 10:21:00.000
auction 23500 19500 24000
pressed buy 24000 100 0
quote special buy 24000 10:24:00.000
due 10:24:00.000
auction 24000 19500 24500
pressed buy 24500 100 0
quote special buy 24500 10:27:00.000
due 10:27:00.000
auction 24500 19500 25000
pressed buy 25000 100 0
quote special buy 25000 -
= moment 9
nodes synchronised synchronised synchronised
total AAAA entries 3 trades 0 shares 0 last 20000
end

# A close at the daily limit is allotted.
> g1 AAAA clock 08:00:00
> g1 AAAA order p1 buy market 800
> g1 AAAA order p2 buy market 600
> g1 AAAA order p3 buy 25000 200
> g1 AAAA order p4 sell 20000 1000
> g1 AAAA clock 11:30:00
market 1
issue AAAA base 20000 unit 100 low 15000 high 25000 prices 1001
0 g1 0 clock 08:00:00.000
due 08:00:00.000
phase collecting
= moment 1
1 g1 1 order p1 buy market 800
= accepted 1 0 800
2 g1 2 order p2 buy market 600
= accepted 2 0 600
3 g1 3 order p3 buy 25000 200
= accepted 3 0 200
4 g1 4 order p4 sell 20000 1000
= accepted 4 0 1000
5 g1 5 clock 11:30:00.000
due 09:00:00.000
phase trading
auction 20000 19500 20500
pressed buy 20500 1600 1000
quote special buy 20500 09:03:00.000
due 09:03:00.000
auction 20500 19500 21000
pressed buy 21000 1600 1000
quote special buy 21000 09:06:00.000
due 09:06:00.000
auction 21000 19500 21500
pressed buy 21500 1600 1000
quote special buy 21500 09:09:00.000
due 09:09:00.000
auction 21500 19500 22000
pressed buy 22000 1600 1000
quote special buy 22000 09:12:00.000
due 09:12:00.000
auction 22000 19500 22500
pressed buy 22500 1600 1000
quote special buy 22500 09:15:00.000
due 09:15:00.000
auction 22500 19500 23000
pressed buy 23000 1600 1000
quote special buy 23000 09:18:00.000
due 09:18:00.000
auction 23000 19500 23500
pressed buy 23500 1600 1000
quote special buy 23500 09:21:00.000
due 09:21:00.000
auction 23500 19500 24000
pressed buy 24000 1600 1000
quote special buy 24000 09:24:00.000
due 09:24:00.000
auction 24000 19500 24500
pressed buy 24500 1600 1000
quote special buy 24500 09:27:00.000
due 09:27:00.000
auction 24500 19500 25000
pressed buy 25000 1400 1000
quote special buy 25000 -
due 11:30:00.000
auction 25000 19500 25000
pressed buy 25000 1400 1000
share p1 500
share p2 300
share p3 200
trade 25000 500 1 4
trade 25000 300 2 4
trade 25000 200 3 4
quote none
phase idle
= moment 11
nodes synchronised synchronised synchronised
total AAAA entries 6 trades 3 shares 1000 last 25000
end

# Changes, cancellations and refusals.
> g1 AAAA clock 09:00:00
> g1 AAAA order p1 buy 19900 300
> g1 AAAA change p1 1 19900 200
> g1 AAAA change p1 1 19910 200
> g1 AAAA change p1 1 19900 200
> g1 AAAA order p2 sell 19900 200
> g1 AAAA change p1 1 19900 100
> g1 AAAA order p1 buy 19000 100
> g1 AAAA cancel p2 7
> g1 AAAA order p1 buy 19000 150
> g1 AAAA order p1 buy 19005 100
> g1 AAAA clock 08:00:00
> g1 AAAA cancel p1 7
> g1 AAAA clock 16:00:00
> g1 AAAA order p1 buy 19000 100
market 1
issue AAAA base 20000 unit 100 low 15000 high 25000 prices 1001
0 g1 0 clock 09:00:00.000
due 08:00:00.000
phase collecting
due 09:00:00.000
phase trading
auction 20000 19500 20500
calm - -
= moment 2
1 g1 1 order p1 buy 19900 300
= accepted 1 0 300
2 g1 2 change p1 1 19900 200
= changed 1 0 200
3 g1 3 change p1 1 19910 200
= changed 3 0 200
4 g1 4 change p1 1 19900 200
= changed 4 0 200
5 g1 5 order p2 sell 19900 200
trade 19900 200 4 5
= accepted 5 200 0
6 g1 6 change p1 1 19900 100
= refused 4 1
7 g1 7 order p1 buy 19000 100
= accepted 7 0 100
8 g1 8 cancel p2 7
= refused 5 p1
9 g1 9 order p1 buy 19000 150
= refused 2 150
10 g1 10 order p1 buy 19005 100
= refused 3 19005
11 g1 11 clock 08:00:00.000
= refused 6 09:00:00.000
12 g1 12 cancel p1 7
= cancelled 100
13 g1 13 clock 16:00:00.000
due 11:30:00.000
auction 19900 19500 20300
calm - -
phase idle
due 12:05:00.000
phase collecting
due 12:30:00.000
phase trading
auction 19900 19500 20300
calm - -
due 15:00:00.000
auction 19900 19500 20300
calm - -
phase idle
= moment 4
14 g1 14 order p1 buy 19000 100
= refused 1 idle
nodes synchronised synchronised synchronised
total AAAA entries 15 trades 1 shares 200 last 19900
end

# A quote begins and ends in one event.
> g1 AAAA clock 09:00:00
> g1 AAAA order p1 buy 24000 100
> g1 AAAA order p2 sell market 100
market 1
issue AAAA base 20000 unit 100 low 15000 high 25000 prices 1001
0 g1 0 clock 09:00:00.000
due 08:00:00.000
phase collecting
due 09:00:00.000
phase trading
auction 20000 19500 20500
calm - -
= moment 2
1 g1 1 order p1 buy 24000 100
= accepted 1 0 100
2 g1 2 order p2 sell market 100
quote special buy 20500 09:03:00.000
auction 20500 19500 20500
price 20500 100 100 100 100 100
trade 20500 100 1 2
quote none
= accepted 2 100 0
nodes synchronised synchronised synchronised
total AAAA entries 3 trades 1 shares 100 last 20500
end

# A quote turns to the other side, and is due at the close.
> g1 AAAA clock 11:27:00
> g1 AAAA order p1 buy market 100
> g1 AAAA order p2 sell market 300
> g1 AAAA clock 11:30:00
> g1 AAAA order p1 buy 20000 100
> g1 AAAA clock 12:05:00
> g1 AAAA clock 15:00:00
market 1
issue AAAA base 20000 unit 100 low 15000 high 25000 prices 1001
0 g1 0 clock 11:27:00.000
due 08:00:00.000
phase collecting
due 09:00:00.000
phase trading
auction 20000 19500 20500
calm - -
= moment 2
1 g1 1 order p1 buy market 100
quote special buy 20500 11:30:00.000
= accepted 1 0 100
2 g1 2 order p2 sell market 300
auction 20500 19500 20500
pressed sell 19500 300 100
quote special sell 19500 11:30:00.000
= accepted 2 0 300
3 g1 3 clock 11:30:00.000
due 11:30:00.000
auction 19500 19100 20500
pressed sell 19100 300 100
quote special sell 19100 11:33:00.000
due 11:30:00.000
auction 19100 18700 20500
pressed sell 18700 300 100
quote none
phase idle
= moment 2
4 g1 4 order p1 buy 20000 100
= refused 1 idle
5 g1 5 clock 12:05:00.000
due 12:05:00.000
phase collecting
= moment 1
6 g1 6 clock 15:00:00.000
due 12:30:00.000
phase trading
auction 20000 19500 20500
pressed sell 19500 300 100
quote special sell 19500 12:33:00.000
due 12:33:00.000
auction 19500 19100 20500
pressed sell 19100 300 100
quote special sell 19100 12:36:00.000
due 12:36:00.000
auction 19100 18700 20500
pressed sell 18700 300 100
quote special sell 18700 12:39:00.000
due 12:39:00.000
auction 18700 18300 20500
pressed sell 18300 300 100
quote special sell 18300 12:42:00.000
due 12:42:00.000
auction 18300 17900 20500
pressed sell 17900 300 100
quote special sell 17900 12:45:00.000
due 12:45:00.000
auction 17900 17500 20500
pressed sell 17500 300 100
quote special sell 17500 12:48:00.000
due 12:48:00.000
auction 17500 17100 20500
pressed sell 17100 300 100
quote special sell 17100 12:51:00.000
due 12:51:00.000
auction 17100 16700 20500
pressed sell 16700 300 100
quote special sell 16700 12:54:00.000
due 12:54:00.000
auction 16700 16300 20500
pressed sell 16300 300 100
quote special sell 16300 12:57:00.000
due 12:57:00.000
auction 16300 15900 20500
pressed sell 15900 300 100
quote special sell 15900 13:00:00.000
due 13:00:00.000
auction 15900 15500 20500
pressed sell 15500 300 100
quote special sell 15500 13:03:00.000
due 13:03:00.000
auction 15500 15100 20500
pressed sell 15100 300 100
quote special sell 15100 13:06:00.000
due 13:06:00.000
auction 15100 15000 20500
pressed sell 15000 300 100
quote special sell 15000 -
due 15:00:00.000
auction 15000 15000 20500
pressed sell 15000 300 100
share p2 100
trade 15000 100 1 2
quote none
phase idle
= moment 14
nodes synchronised synchronised synchronised
total AAAA entries 7 trades 1 shares 100 last 15000
end

# A close that trades at the daily limit with more buys than sells is shared by rounds.
> g1 AAAA clock 11:04:00
> g1 AAAA order p3 sell 25000 700
> g1 AAAA order p1 buy 25000 800
> g1 AAAA order p2 buy 25000 600
> g1 AAAA clock 11:29:00
> g1 AAAA clock 11:30:00
market 1
issue AAAA base 20000 unit 100 low 15000 high 25000 prices 1001
0 g1 0 clock 11:04:00.000
due 08:00:00.000
phase collecting
due 09:00:00.000
phase trading
auction 20000 19500 20500
calm - -
= moment 2
1 g1 1 order p3 sell 25000 700
= accepted 1 0 700
2 g1 2 order p1 buy 25000 800
quote special buy 20500 11:07:00.000
= accepted 2 0 800
3 g1 3 order p2 buy 25000 600
= accepted 3 0 600
4 g1 4 clock 11:29:00.000
due 11:07:00.000
auction 20500 19500 21000
pressed buy 21000 1400 0
quote special buy 21000 11:10:00.000
due 11:10:00.000
auction 21000 19500 21500
pressed buy 21500 1400 0
quote special buy 21500 11:13:00.000
due 11:13:00.000
auction 21500 19500 22000
pressed buy 22000 1400 0
quote special buy 22000 11:16:00.000
due 11:16:00.000
auction 22000 19500 22500
pressed buy 22500 1400 0
quote special buy 22500 11:19:00.000
due 11:19:00.000
auction 22500 19500 23000
pressed buy 23000 1400 0
quote special buy 23000 11:22:00.000
due 11:22:00.000
auction 23000 19500 23500
pressed buy 23500 1400 0
quote special buy 23500 11:25:00.000
due 11:25:00.000
auction 23500 19500 24000
pressed buy 24000 1400 0
quote special buy 24000 11:28:00.000
due 11:28:00.000
auction 24000 19500 24500
pressed buy 24500 1400 0
quote special buy 24500 11:31:00.000
= moment 8
5 g1 5 clock 11:30:00.000
due 11:30:00.000
auction 24500 19500 25000
rejected 24500 1400 1400 0 0
... 98
rejected 24000 1400 1400 0 0
price 25000 700 1400 0 700 0
share p1 500
share p2 200
trade 25000 500 2 1
trade 25000 200 3 1
quote none
phase idle
= moment 1
nodes synchronised synchronised synchronised
total AAAA entries 6 trades 2 shares 700 last 25000
end

# A quote that is pressed at the close, short of the limit, ends without a trade.
> g1 AAAA clock 11:29:59
> g1 AAAA order p1 buy market 800
> g1 AAAA order p2 buy market 600
> g1 AAAA order p3 sell 25000 700
> g1 AAAA clock 11:30:00
market 1
issue AAAA base 20000 unit 100 low 15000 high 25000 prices 1001
0 g1 0 clock 11:29:59.000
due 08:00:00.000
phase collecting
due 09:00:00.000
phase trading
auction 20000 19500 20500
calm - -
= moment 2
1 g1 1 order p1 buy market 800
quote special buy 20500 11:32:59.000
= accepted 1 0 800
2 g1 2 order p2 buy market 600
= accepted 2 0 600
3 g1 3 order p3 sell 25000 700
= accepted 3 0 700
4 g1 4 clock 11:30:00.000
due 11:30:00.000
auction 20500 19500 21000
pressed buy 21000 1400 0
quote none
phase idle
= moment 1
nodes synchronised synchronised synchronised
total AAAA entries 5 trades 0 shares 0 last 20000
end

# Two gateways, and no event.
> g2 AAAA clock 08:00:00
> g1 AAAA order p1 buy 20000 100
> g2 AAAA order p1 buy 20000 200
> g1 AAAA cancel p1 0
market 1
issue AAAA base 20000 unit 100 low 15000 high 25000 prices 1001
0 g2 0 clock 08:00:00.000
due 08:00:00.000
phase collecting
= moment 1
1 g1 0 order p1 buy 20000 100
= accepted 1 0 100
2 g2 1 order p1 buy 20000 200
= accepted 2 0 200
3 g1 1 cancel p1 0
= cancelled 100
nodes synchronised synchronised synchronised
total AAAA entries 4 trades 0 shares 0 last 20000
end

# An empty script.
>
market 1
issue AAAA base 20000 unit 100 low 15000 high 25000 prices 1001
nodes synchronised synchronised synchronised
total AAAA entries 0 trades 0 shares 0 last 20000
end

# Two issues in file order.
>> g1 * clock 08:00:00
>> g1 BBBB order p1 buy 12000 100
>> g1 AAAA order p1 buy 20000 100
>> g1 * clock 09:00:00
>> g1 BBBB order p2 sell 12000 100
market 1
issue AAAA base 20000 unit 100 low 15000 high 25000 prices 1001
0 g1 0 clock 08:00:00.000
due 08:00:00.000
phase collecting
= moment 1
1 g1 1 order p1 buy 20000 100
= accepted 1 0 100
2 g1 2 clock 09:00:00.000
due 09:00:00.000
phase trading
auction 20000 19500 20500
calm 20000 -
= moment 1
nodes synchronised synchronised synchronised
total AAAA entries 3 trades 0 shares 0 last 20000
issue BBBB base 12000 unit 100 low 9000 high 15000 prices 601
0 g1 0 clock 08:00:00.000
due 08:00:00.000
phase collecting
= moment 1
1 g1 1 order p1 buy 12000 100
= accepted 1 0 100
2 g1 2 clock 09:00:00.000
due 09:00:00.000
phase trading
auction 12000 11700 12300
calm 12000 -
= moment 1
3 g1 3 order p2 sell 12000 100
trade 12000 100 1 3
= accepted 3 100 0
nodes synchronised synchronised synchronised
total BBBB entries 4 trades 1 shares 100 last 12000
end

";
