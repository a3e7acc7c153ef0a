mod arrivals;
