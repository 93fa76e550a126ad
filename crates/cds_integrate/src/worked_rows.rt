//! Rows worked out by hand. A peak is written as its range and apex in samples, its time, its area, its height, the
//! ends of its line, its crossings at half height and at one twentieth, the heights of its valley and its component,
//! where it has them. A full stop ends all that it has; two stand where more follows that isn't worked out.

/// What each method states besides its own lines.
pub(crate) const COMMON: &str =
    "slope_on = 5\nslope_off = 5\nplateau = 3\nfuse = 2\nweight = 'equal'\n";

/// The least that a method states of its own.
pub(crate) const PLAIN: &str = "bunch = 1\nmin_area = 1\nmin_height = 1\n";

/// A line for each row: what it shows; its samples, one a second; the lines of its method, where `; ` ends one; its own
/// events; its peaks. A line that begins with `#` says how the one behind it was worked out.
pub(crate) const ROWS: &str =
    r#"one peak|0 0 0 10 40 60 40 10 0 0 0|bunch = 1; min_area = 1; min_height = 1||1 5 8 at 5000000 area 160 height 60 over 1 8 half 3666666 6333333 twentieth 2300000 7700000.
two fused peaks|0 0 0 10 40 60 40 20 40 60 40 10 0 0 0|bunch = 1; min_area = 1; min_height = 1||1 5 7 at 5000000 area 160 height 60 over 1 12 half 3666666 6500000.; 7 9 12 at 9000000 area 160 height 60 over 1 12 half 7500000 10333333 valley 60 20.
a valley event bends the baseline|0 0 0 10 40 60 40 20 40 60 40 10 0 0 0|bunch = 1; min_area = 1; min_height = 1|{kind = 'valley', from_ms = 7000, to_ms = 7001}|1 5 7 at 5000000 area 100 height 140/3 over 1 7 half 3750000 6000000 twentieth 2850000 6900000.; 7 9 12 at 9000000 area 110 height 48 over 7 12 half 8000000 10307692 twentieth 7100000 11600000.
a skim event takes the rider out of its parent|0 0 0 10 40 60 40 20 40 60 40 10 0 0 0|bunch = 1; min_area = 1; min_height = 1|{kind = 'skim', from_ms = 7000, to_ms = 7001}|1 5 7 at 5000000 area 210 height 60 over 1 12 half 3666666 6500000.; rider 7 9 12 at 9000000 area 110 height 48 over 7 12 half 8000000 10307692 twentieth 7100000 11600000.
a skim event works in a forced piece too|0 0 0 10 40 60 40 20 40 60 40 10 0 0 0|bunch = 1; min_area = 1; min_height = 1|{kind = 'skim', from_ms = 7000, to_ms = 7001}, {kind = 'baseline', from_ms = 1000, to_ms = 12000}|1 5 7 at 5000000 area 210 height 60 over 1 12 half 3666666 6500000.; rider 7 9 12 at 9000000 area 110 height 48 over 7 12 half 8000000 10307692 twentieth 7100000 11600000.
a valley under the line is a node|50 50 50 60 90 110 60 20 60 110 90 60 50 50 50|bunch = 1; min_area = 1; min_height = 1||1 5 7 at 5000000 area 195 height 80 over 1 7 half 3571428 5888888 twentieth 1800000 6885714.; 7 9 12 at 9000000 area 180 height 78 over 7 12 half 8113636 10361111 twentieth 7114705 11756250.
a skim event on a node has no effect|50 50 50 60 90 110 60 20 60 110 90 60 50 50 50|bunch = 1; min_area = 1; min_height = 1|{kind = 'skim', from_ms = 7000, to_ms = 7001}|1 5 7 at 5000000 area 195 height 80 over 1 7 half 3571428 5888888 twentieth 1800000 6885714.; 7 9 12 at 9000000 area 180 height 78 over 7 12 half 8113636 10361111 twentieth 7114705 11756250.
two samples|7 7|bunch = 1; min_area = 1; min_height = 1||
a peak behind a climb that was abandoned|0 0 10 10 10 10 10 10 20 40 20 10 10 10|bunch = 1; min_area = 1; min_height = 1||6 9 11 at 9000000 area 50 height 30 over 6 11 half 8250000 9750000 twentieth 7150000 10850000.
a peak that ends with the trace|0 0 0 20 60 100 80 60 40|bunch = 1; min_area = 1; min_height = 1||1 5 8 at 5000000 area 200 height 540/7 over 1 8 half 3875000 6500000 twentieth 2670000 7850000.
of two components as far from a peak the first has it|0 0 0 10 40 60 40 10 0 0 0|bunch = 1; min_area = 1; min_height = 1; component = [{name = 'a', time_ms = 4500, window_ms = 1000}, {name = 'c', time_ms = 5500, window_ms = 1000}]||1 5 8 at 5000000 area 160 height 60 over 1 8 half 3666666 6333333 twentieth 2300000 7700000 named 1.
of two peaks as far from a component it has the first|0 0 0 10 40 60 40 20 40 60 40 10 0 0 0|bunch = 1; min_area = 1; min_height = 1; component = [{name = 'k', time_ms = 7000, window_ms = 2000}]||1 5 7 at 5000000 area 160 height 60 over 1 12 half 3666666 6500000 named 1.; 7 9 12 at 9000000 area 160 height 60 over 1 12 half 7500000 10333333 valley 60 20.
a nearer component takes a peak|0 0 0 10 40 60 40 20 40 60 40 10 0 0 0|bunch = 1; min_area = 1; min_height = 1; component = [{name = 'k', time_ms = 7000, window_ms = 2000}, {name = 'l', time_ms = 6500, window_ms = 2500}]||1 5 7 at 5000000 area 160 height 60 over 1 12 half 3666666 6500000 named 2.; 7 9 12 at 9000000 area 160 height 60 over 1 12 half 7500000 10333333 valley 60 20 named 1.
a valley above half height cuts both widths|0 0 0 10 40 60 50 40 50 60 40 10 0 0 0|bunch = 1; min_area = 1; min_height = 1||1 5 7 at 5000000 area 180 height 60 over 1 12.; 7 9 12 at 9000000 area 180 height 60 over 1 12 valley 60 40.
a drop line cuts a peak|0 0 0 10 40 60 40 10 0 0 0|bunch = 1; min_area = 1; min_height = 1|{kind = 'drop', at_ms = 6000}|1 5 6 at 5000000 area 130 height 60 over 1 8.; 6 6 8 at 6000000 area 30 height 40 over 1 8 valley 60 40.
no valley behind a part that is rejected|0 0 0 10 40 60 40 10 0 0 0|bunch = 1; min_area = 30001; min_height = 1|{kind = 'drop', at_ms = 4000}|4 5 8 at 5000000 area 130 height 60 over 1 8.
a forced baseline|0 0 0 10 40 60 40 10 0 0 0|bunch = 1; min_area = 1; min_height = 1|{kind = 'baseline', from_ms = 2000, to_ms = 7000}|2 5 7 at 5000000 area 130 height 54 over 2 7 half 3678571 6156250 twentieth 2337500 6915625.
a forced baseline that overlaps an earlier one has no effect|0 0 0 10 40 60 40 10 0 0 0|bunch = 1; min_area = 1; min_height = 1|{kind = 'baseline', from_ms = 2000, to_ms = 7000}, {kind = 'baseline', from_ms = 6000, to_ms = 9000}|2 5 7 at 5000000 area 130 height 54 over 2 7 half 3678571 6156250 twentieth 2337500 6915625.
# The two share sample 7 alone, so both have effect. No apex lies in the second, so it has no part, and it changes
# no end, since the one raw peak belongs to the first.
a forced baseline in which no apex lies has no part|0 0 0 10 40 60 40 10 0 0 0|bunch = 1; min_area = 1; min_height = 1|{kind = 'baseline', from_ms = 2000, to_ms = 7000}, {kind = 'baseline', from_ms = 7000, to_ms = 9000}|2 5 7 at 5000000 area 130 height 54 over 2 7 half 3678571 6156250 twentieth 2337500 6915625.
# The second line falls from 20 at sample 7 to 0 at sample 14: 160 under the signal, less 70 under the line. At the
# samples 7 to 11 the heights are 0, 160 / 7, 320 / 7, 200 / 7 and 10 / 7.
of two forced baselines that share an end both have effect|0 0 0 10 40 60 40 20 40 60 40 10 0 0 0|bunch = 1; min_area = 1; min_height = 1|{kind = 'baseline', from_ms = 1000, to_ms = 7000}, {kind = 'baseline', from_ms = 7000, to_ms = 14000}|1 5 7 at 5000000 area 100 height 140/3 over 1 7 half 3750000 6000000 twentieth 2850000 6900000.; 7 9 14 at 9000000 area 90 height 320/7 over 7 14 half 8000000 10210526 twentieth 7100000 10968421.
# The second event has no effect, so the second raw peak is outside of forced baselines, a cluster of its own.
of two that share more than an end the first has effect|0 0 0 10 40 60 40 20 40 60 40 10 0 0 0|bunch = 1; min_area = 1; min_height = 1|{kind = 'baseline', from_ms = 1000, to_ms = 7000}, {kind = 'baseline', from_ms = 6000, to_ms = 14000}|1 5 7 at 5000000 area 100 height 140/3 over 1 7 half 3750000 6000000 twentieth 2850000 6900000.; 7 9 12 at 9000000 area 110 height 48 over 7 12 half 8000000 10307692 twentieth 7100000 11600000.
a forced baseline of the method|0 0 0 10 40 60 40 10 0 0 0|bunch = 1; min_area = 1; min_height = 1; event = [{kind = 'baseline', from_ms = 2000, to_ms = 7000}]||2 5 7 at 5000000 area 130 height 54 over 2 7 half 3678571 6156250 twentieth 2337500 6915625.
a forced baseline of the method stands before the row's own|0 0 0 10 40 60 40 10 0 0 0|bunch = 1; min_area = 1; min_height = 1; event = [{kind = 'baseline', from_ms = 2000, to_ms = 7000}]|{kind = 'baseline', from_ms = 6000, to_ms = 9000}|2 5 7 at 5000000 area 130 height 54 over 2 7 half 3678571 6156250 twentieth 2337500 6915625.
# The method's event has effect alone: it lowers the end of the raw peak from 8 to 6, where the signal is 40. The
# line rises from 0 at sample 1 to 40 at sample 6: 130 under the signal, less 100 under the line. At the samples 3
# to 6 the heights are -6, 16, 28 and 0.
also before one of the row that begins earlier|0 0 0 10 40 60 40 10 0 0 0|bunch = 1; min_area = 1; min_height = 1; event = [{kind = 'baseline', from_ms = 6000, to_ms = 9000}]|{kind = 'baseline', from_ms = 2000, to_ms = 7000}|1 5 6 at 5000000 area 30 height 28 over 1 6 half 3909090 5500000 twentieth 3336363 5950000.
slopes that no rise reaches|0 0 0 10 40 60 40 10 0 0 0|bunch = 1; min_area = 1; min_height = 1|{kind = 'slope', at_ms = 0, on = 30, off = 5}|
a part below the least area|0 0 0 10 40 60 40 10 0 0 0|bunch = 1; min_area = 160001; min_height = 1||
a part below the least height|0 0 0 10 40 60 40 10 0 0 0|bunch = 1; min_area = 1; min_height = 61||
an inhibited rise|0 0 0 10 40 60 40 10 0 0 0|bunch = 1; min_area = 1; min_height = 1|{kind = 'inhibit', from_ms = 0, to_ms = 6000}|
# The second event begins before the first ends, so it has no effect, and the third isn't judged by it.
a forced baseline without effect doesn't block a later one|0 0 0 10 40 60 40 20 40 60 40 10 0 0 0|bunch = 1; min_area = 1; min_height = 1|{kind = 'baseline', from_ms = 2000, to_ms = 6000}, {kind = 'baseline', from_ms = 5000, to_ms = 8000}, {kind = 'baseline', from_ms = 7000, to_ms = 11000}|2 5 6 at 5000000 area 50 height 30 ..; 7 9 11 at 9000000 area 95 height 45 ..
# The tangent falls from 20 at sample 7 to -20 at sample 11, and the rider's part ends with sample 12: 290 under
# the signal in the whole, less 140 of the rider.
the area of a parent goes on to the end of its rider's part, and a rider's widths lie above its tangent|0 0 0 10 40 60 40 20 40 60 40 -20 0|bunch = 1; min_area = 1; min_height = 1|{kind = 'skim', from_ms = 7000, to_ms = 7001}|1 5 7 at 5000000 area 150 height 60 ..; rider 7 9 11 at 9000000 area 140 height 60 over 7 11 half 8000000 10400000 ..
a drop line bounds a tangent|0 0 0 10 40 60 40 20 40 60 40 10 0 0 0|bunch = 1; min_area = 1; min_height = 1|{kind = 'skim', from_ms = 7000, to_ms = 7001}, {kind = 'drop', at_ms = 11000}|1 5 7 at 5000000 area 220 height 60 ..; rider 7 9 11 at 9000000 area 95 height 45 ..; 11 11 12 at 11000000 area 5 height 10 ..
the area of a rider that is rejected is taken out of its parent too|0 0 0 10 40 60 40 20 40 60 40 10 0 0 0|bunch = 1; min_area = 110001; min_height = 1|{kind = 'skim', from_ms = 7000, to_ms = 7001}|1 5 7 at 5000000 area 210 height 60 ..
three fused peaks|0 0 0 20 60 100 60 30 60 50 35 30 50 30 0 0 0 0|bunch = 1; min_area = 1; min_height = 1||1 5 7 at 5000000 area 255 height 100 ..; 7 8 11 at 8000000 area 175 height 60 ..; 11 12 14 at 12000000 area 95 height 50 ..
two riders on one parent|0 0 0 20 60 100 60 30 60 50 35 30 50 30 0 0 0 0|bunch = 1; min_area = 1; min_height = 1|{kind = 'skim', from_ms = 0, to_ms = 18000}|1 5 7 at 5000000 area 420 height 100 ..; rider 7 8 11 at 8000000 area 55 height 30 ..; rider 11 12 14 at 12000000 area 50 height 30 ..
a rider between two parts over the baseline|0 0 0 20 60 100 60 30 60 50 35 30 50 30 0 0 0 0|bunch = 1; min_area = 1; min_height = 1|{kind = 'skim', from_ms = 7000, to_ms = 7001}|1 5 7 at 5000000 area 375 height 100 ..; rider 7 8 11 at 8000000 area 55 height 30 ..; 11 12 14 at 12000000 area 95 height 50 ..
the parent of a rider is the nearest part before it|0 0 0 20 60 100 60 30 60 50 35 30 50 30 0 0 0 0|bunch = 1; min_area = 1; min_height = 1|{kind = 'skim', from_ms = 11000, to_ms = 11001}|1 5 7 at 5000000 area 255 height 100 ..; 7 8 11 at 8000000 area 220 height 60 ..; rider 11 12 14 at 12000000 area 50 height 30 ..
# Behind the apex 100 the signal falls to 80, and before it, it rises from 60: the vertex lies 20 / 120 behind it.
under rules 1 a peak is named at its apex sample|0 0 0 20 60 100 80 60 40|bunch = 1; min_area = 1; min_height = 1; rules = 1; component = [{name = 's', time_ms = 5000, window_ms = 100}, {name = 'v', time_ms = 5167, window_ms = 1}]||1 5 8 at 5000000 area 200 height 540/7 over 1 8 half 3875000 6500000 twentieth 2670000 7850000 named 1.
under rules 2 it is named at the vertex|0 0 0 20 60 100 80 60 40|bunch = 1; min_area = 1; min_height = 1; rules = 2; component = [{name = 's', time_ms = 5000, window_ms = 100}, {name = 'v', time_ms = 5167, window_ms = 1}]||1 5 8 at 5166666 area 200 height 540/7 over 1 8 half 3875000 6500000 twentieth 2670000 7850000 named 2.
a vertex before the apex sample is rounded down too|0 0 0 10 40 60 50 40 50 60 40 10 0 0 0|bunch = 1; min_area = 1; min_height = 1; rules = 2||1 5 7 at 5166666 area 180 height 60 over 1 12.; 7 9 12 at 8833333 area 180 height 60 over 1 12 valley 60 40.
a piece behind a drop whose apex is its own end has the time of that sample|0 0 0 10 40 60 40 10 0 0 0|bunch = 1; min_area = 1; min_height = 1; rules = 2|{kind = 'drop', at_ms = 6000}|1 5 6 at 5000000 area 130 height 60 over 1 8.; 6 6 8 at 6000000 area 30 height 40 over 1 8 valley 60 40.
# Over four samples the sums rise by 330 and 280 from bunch 1 on, and fall by 180 and 370 from bunch 3 on, where
# 160 is the least. The line rises from 0 to 60: 840 under the signal, less 480.
samples in fours|0 0 0 0 0 0 0 0 10 20 30 40 60 80 90 100 110 100 90 80 60 40 30 20 10 0 0 0 0 0 0 0 0 0|bunch = 4; min_area = 1; min_height = 1||4 16 20 at 16000000 area 360 height 65 over 4 20 half 12153846 18363636 twentieth 9320000 19863157.
# The line rises from 0 at sample 4 to 5 at sample 29: 977.5 under the signal, less 62.5.
samples in fours, of which the last two are none|0 0 0 0 0 0 0 0 10 20 30 40 60 80 90 100 110 100 90 80 60 40 30 20 10 0 0 0 5 5|bunch = 4; min_area = 1; min_height = 1||4 16 29 at 16000000 area 915 height 538/5 over 4 29 half 11767676 20148514 twentieth 7610204 24060784.
a slope event of the row stands behind the method's of the same time|0 0 0 0 0 0 0 0 10 20 30 40 60 80 90 100 110 100 90 80 60 40 30 20 10 0 0 0 0 0 0 0 0 0|bunch = 4; min_area = 1; min_height = 1; event = [{kind = 'slope', at_ms = 0, on = 30, off = 5}]|{kind = 'slope', at_ms = 0, on = 5, off = 5}|4 16 20 at 16000000 area 360 height 65 over 4 20 half 12153846 18363636 twentieth 9320000 19863157.
# The line is at 30 at sample 12, and at 52.5 at sample 18.
drop lines of the method and of the row cut the same peak|0 0 0 0 0 0 0 0 10 20 30 40 60 80 90 100 110 100 90 80 60 40 30 20 10 0 0 0 0 0 0 0 0 0|bunch = 4; min_area = 1; min_height = 1; event = [{kind = 'drop', at_ms = 12000}]|{kind = 'drop', at_ms = 18000}|4 12 12 at 12000000 area 10 height 30 over 4 20.; 12 16 18 at 16000000 area 615/2 height 65 over 4 20 valley 30 30.; 18 18 20 at 18000000 area 85/2 height 75/2 over 4 20 valley 65 75/2.
"#;
